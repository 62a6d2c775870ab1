//! What is wrong with a receipt.
ghost use Rattle.std.specs.Prelude.{◌≡◌, ◌<◌, ◌^◌};
ghost use Rattle.receipt_check.specs.Shape as shape;
ghost use Rattle.receipt_check.specs.declared.wrong.CompareFault.TheVariants as compare;
ghost use Rattle.receipt_check.specs.declared.wrong.ReceiptFault.TheVariants.{Memory};

use std::alloc::AllocError;
use thiserror::Error;

/// What is wrong with a row of a receipt.
#[derive(Clone, Copy, Debug, PartialEq, Eq, Error)]
pub enum Wrong {
    /// The first row isn't `receipt,2,P,NAME` or `receipt,2,R,NAME`.
    #[error("not the first row of a receipt: this file was changed by a program; ask for it again or paste the text")]
    Header,
    /// The first row is `receipt,1,..`, that of an earlier form of receipts.
    #[error("a receipt of an earlier form, whose root has no number of members: ask for a new one")]
    Age,
    /// The row isn't a root's: the tree's word, a number of members, and 64 hexadecimal digits
    /// without capital letters.
    #[error("not the row of a root: this file was changed by a program; ask for it again or paste the text")]
    RootRow,
    /// The row isn't an opening: the tree's word, the member's number, a salt, and the hashes of a
    /// path.
    #[error("not the row of an opening: this file was changed by a program; ask for it again or paste the text")]
    OpeningRow,
    /// The file is longer than any receipt.
    #[error("longer than any receipt: this file was changed by a program; ask for it again or paste the text")]
    Long,
    /// A row is missing or unfinished.
    #[error("the receipt is cut off here: ask for it again")]
    Missing,
    /// The root in the row isn't the published one.
    #[error("another root than the published one")]
    Root,
    /// The rows of the two roots have different numbers of members.
    #[error("another count than that of the lists")]
    Count,
    /// The rows of the two openings have different members' numbers.
    #[error("another place than in the lists")]
    Place,
    /// The leaf with this salt and these rows doesn't open the root by this path.
    #[error("what follows doesn't open the published root")]
    Opening,
    /// The row is none of the member's rows before the match.
    #[error("not a row of this member's list")]
    List,
    /// The row is none of the member's rows after the match.
    #[error("not a row of this member's result")]
    Result,
    /// There is a result in the receipt, but the caller gave no root of a result.
    #[error("a result, and no root of a result was given")]
    Unasked,
    /// A name isn't one that a docket can have.
    #[error("not a name of a docket")]
    Name,
    /// A real name isn't written as csv writes one, or has a character that can't be shown.
    #[error("not a real name that can be shown")]
    RealName,
    /// A name stands twice.
    #[error("a name that stands twice")]
    Twice,
    /// A name isn't on the list.
    #[error("a name that isn't on the list")]
    NotListed,
    /// The quota is no number, or the receipt has more residents than the quota.
    #[error("the numbers don't fit the rows")]
    Numbers,
    /// A withdrawn member is matched.
    #[error("a result of a member who is withdrawn")]
    Gone,
    /// The choice can't have this answer.
    #[error("a reason that can't stand here")]
    Reason,
    /// The answer is `full`, but by its numbers the places did not go to residents before this one.
    #[error("full, but not of residents who are ranked before")]
    Full,
    /// The receipt is a programme's, and a resident's is wanted.
    #[error("not a resident's receipt")]
    NotResident,
    /// The receipt is a resident's, and a programme's is wanted.
    #[error("not a programme's receipt")]
    NotProgramme,
    /// The receipt has another number of members than was published.
    #[error("another number of members than the published one")]
    Members,
    /// An earlier file has the receipt of the same member.
    #[error("a member whose receipt is in a file before this one")]
    Again,
}

/// What is wrong with a row of a receipt.
#[derive(Clone, Copy, Debug, PartialEq, Eq, Error)]
#[error("row {row}: {wrong}")]
pub struct Fault {
    /// The row's number, from 1.
    pub row: usize,
    /// What is wrong.
    pub wrong: Wrong,
}

impl Fault {
    /// Whether the file isn't as it was given: a program changed it, or a part is missing. If the
    /// file is as it was given, the receipt is wrong.
    pub fn is_changed(&self) -> bool
        ensures { result ≡ shape.is_changed self.now.wrong }
    {
        match self.wrong {
            Wrong::Header
            | Wrong::Age
            | Wrong::RootRow
            | Wrong::OpeningRow
            | Wrong::Long
            | Wrong::Missing => true,
            _ => false,
        }
    }
}

/// Why a receipt isn't good, or wasn't checked.
#[derive(Clone, Copy, Debug, PartialEq, Eq, Error)]
pub enum ReceiptFault {
    /// The first thing that is wrong with the receipt.
    #[error(transparent)]
    Wrong(Fault),
    /// The memory could not grow.
    #[error("out of memory")]
    Memory,
    /// The writer failed.
    #[error("the output could not be written")]
    Write,
}

impl From<AllocError> for ReceiptFault {
    ghost from_gives = { λ _ fault. fault ≡ Memory };

    fn from(_error: AllocError) -> ReceiptFault {
        ReceiptFault::Memory
    }
}

/// Why receipts weren't compared.
#[derive(Clone, Copy, Debug, PartialEq, Eq, Error)]
pub enum CompareFault {
    /// The number of the first file that is at fault, from 0, and what is wrong with its receipt.
    #[error("{1}")]
    Wrong(usize, Fault),
    /// The memory could not grow.
    #[error("out of memory")]
    Memory,
    /// The writer failed.
    #[error("the output could not be written")]
    Write,
}

impl From<AllocError> for CompareFault {
    ghost from_gives = { λ _ fault. fault ≡ compare.Memory };

    fn from(_error: AllocError) -> CompareFault {
        CompareFault::Memory
    }
}

/// What is wrong, as a fault of the row at this place, which is counted from 0.
pub(crate) fn row_fault(row_index: usize, defect: Wrong) -> Fault
    requires { row_index < 2 ^ 63 }
    ensures { result ≡ shape.at row_index defect }
{
    Fault {
        row: row_index + 1,
        wrong: defect,
    }
}
