//! Records of CSV: how they are read from a source, and how they are written to a text or to a writer.
//!
//! Only tests refuse a body that always answers out of memory, or that always answers that the reader or the writer
//! failed.
#![tactic(auto)]

mod lines;
mod reading;
mod retrying;
mod writer;

pub use lines::put_line;
pub use reading::{ReadFailed, field, next_row, reader_over};
pub use retrying::Retrying;
pub use writer::{RowWriter, WriteFailed, room_for_rows};
