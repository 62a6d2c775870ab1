//! The builder of an instance, from quotas, lists and withdrawals.
ghost use Rattle.std.specs.Prelude.{◌≡◌, ℕ, ◌⊎◌, ◌<◌, ◌≤◌, Option, List, [], length, IfOk, IfErr, OnOk, OnErr, IfSome, Err};
ghost use Rattle.match_model.specs.Instance.{IsInstance};

use crate::fault::ModelFault;
use crate::given::GivenLists;
use crate::instance::Instance;
use crate::limits::{Limits, MAX_QUOTA};
use crate::member::{ProgrammeNo, ResidentNo};
use crate::written::WrittenLists;
use crate::{mutual_parts, ranking};
use std::alloc::Global;
use std::marker::Model;

/// A builder that accepts quotas, lists and withdrawals, one at a time.
#[derive(Debug, Drop)]
pub struct InstanceBuilder {
    alloc: Global,
    limits: Limits,
    quotas: Vec<u32>,
    programme_lists: GivenLists,
    resident_lists: GivenLists,
    programmes_withdrawn: Vec<bool>,
    residents_withdrawn: Vec<bool>,
    item_places: Vec<usize>,
}

impl Model for InstanceBuilder {
    ghost use Rattle.match_model.specs.Draft.{Draft, IsDraft, draft_with};

    ghost Value = { Draft };

    ghost view = { λ b. draft_with b.limits b.quotas.items b.programme_lists
        b.resident_lists b.programmes_withdrawn.items b.residents_withdrawn.items };

    ghost invariant = { λ b. IsDraft
        (draft_with b.limits b.quotas.items b.programme_lists
        b.resident_lists b.programmes_withdrawn.items b.residents_withdrawn.items) };
}

/// Why `finish` refused to make an instance, with the unchanged builder.
#[derive(Debug, Drop)]
pub struct FinishRefused {
    /// The unchanged builder.
    pub builder: InstanceBuilder,
    /// `TooManyPairs` or `Memory`.
    pub fault: ModelFault,
}

impl InstanceBuilder {
    ghost use Rattle.match_model.specs.Fault.{AnswersExactly};
    ghost use Rattle.match_model.specs.Draft.{Draft, AnswersFirst, AnswersOrWantsMemory, programme_fault, resident_fault, list_fault, owner_fault, withdrawal_fault, with_programme, with_resident, with_programme_list, with_resident_list, with_programme_withdrawn, with_resident_withdrawn, instance_of, IsFinishFault};
    ghost use Rattle.match_model.specs.Written.{written_of};
    ghost use Rattle.match_model.specs.Limits.{IsWithin};
    ghost use Rattle.match_model.specs.declared.limits.Limits.TheVariants.{Standard};

    /// A builder without members, within the standard limits. All later memory comes from this allocator.
    pub fn new(alloc: Global) -> InstanceBuilder
        ensures { result ≡ record {
          limits = Standard;
          quotas = [];
          programme_lists = [];
          resident_lists = [];
          programmes_withdrawn = [];
          residents_withdrawn = [];
        } }
    {
        InstanceBuilder::within(alloc, Limits::Standard)
    }

    /// A builder without members, within these limits.
    pub fn within(alloc: Global, limits: Limits) -> InstanceBuilder
        ensures { result ≡ record {
          limits = limits;
          quotas = [];
          programme_lists = [];
          resident_lists = [];
          programmes_withdrawn = [];
          residents_withdrawn = [];
        } }
    {
        InstanceBuilder {
            alloc,
            limits,
            quotas: Vec::new(alloc),
            programme_lists: GivenLists::new(alloc),
            resident_lists: GivenLists::new(alloc),
            programmes_withdrawn: Vec::new(alloc),
            residents_withdrawn: Vec::new(alloc),
            item_places: Vec::new(alloc),
        }
    }

    /// The limits that apply to the builder's numbers of members and pairs.
    pub fn limits(&self) -> Limits
        ensures { result ≡ self.now.limits }
    {
        self.limits
    }

    /// Adds a programme with a quota, and returns its number. May fail with `TooManyProgrammes`, `QuotaTooLarge` or
    /// `Memory`.
    pub fn add_programme(&mut self, quota: u32) -> Result<ProgrammeNo, ModelFault>
        ensures number { IfOk result (λ p. p ≡ length self.old.quotas) }
        ensures added { OnOk result (self.new ≡ with_programme self.old quota) }
        ensures first_fault { AnswersFirst (programme_fault self.old quota) result }
        ensures err { OnErr result (self.new ≡ self.old) }
    {
        let number = self.quotas.len();
        if number >= self.limits.programmes() {
            return Err(ModelFault::TooManyProgrammes);
        }
        if quota > MAX_QUOTA {
            return Err(ModelFault::QuotaTooLarge);
        }
        self.programmes_withdrawn.push(false)?;
        let Ok(()) = self.quotas.push(quota) else {
            self.programmes_withdrawn.truncate(number);
            return Err(ModelFault::Memory);
        };
        let Ok(()) = self.programme_lists.add_member() else {
            self.programmes_withdrawn.truncate(number);
            self.quotas.truncate(number);
            return Err(ModelFault::Memory);
        };
        Ok(ProgrammeNo(number as u32))
    }

    /// Adds a resident, and returns its number. May fail with `TooManyResidents` or `Memory`.
    pub fn add_resident(&mut self) -> Result<ResidentNo, ModelFault>
        ensures number { IfOk result (λ r. r ≡ length self.old.resident_lists) }
        ensures added { OnOk result (self.new ≡ with_resident self.old) }
        ensures first_fault { AnswersFirst (resident_fault self.old) result }
        ensures err { OnErr result (self.new ≡ self.old) }
    {
        let number = self.resident_lists.len();
        if number >= self.limits.residents() {
            return Err(ModelFault::TooManyResidents);
        }
        self.residents_withdrawn.push(false)?;
        let Ok(()) = self.resident_lists.add_member() else {
            self.residents_withdrawn.truncate(number);
            return Err(ModelFault::Memory);
        };
        Ok(ResidentNo(number as u32))
    }

    /// Gives a programme its list, best first. May fail with `NoSuchMember` for the owner, `ListGivenTwice`,
    /// `NoSuchMember` for an item, `ListedTwice` or `Memory`. A given list may be empty.
    pub fn programme_list(
        &mut self,
        programme: ProgrammeNo,
        residents: &[ResidentNo],
    ) -> Result<(), ModelFault>
        ensures given { OnOk result
            (self.new ≡ with_programme_list self.old programme residents.now) }
        ensures first_fault { AnswersOrWantsMemory (list_fault self.old.programme_lists programme
            (length self.old.resident_lists) residents.now) result }
        ensures owner { IfSome (owner_fault self.old.programme_lists programme) (λ fault.
            result ≡ Err fault) }
        ensures err { OnErr result (self.new ≡ self.old) }
    {
        let owner = programme.0 as usize;
        self.programme_lists.test_owner(owner)?;
        let resident_count = self.resident_lists.len();
        self.programme_lists
            .give_residents(owner, residents, resident_count, &mut self.item_places)?;
        Ok(())
    }

    /// Gives a resident a list, best first. The faults are those of `programme_list`.
    pub fn resident_list(
        &mut self,
        resident: ResidentNo,
        programmes: &[ProgrammeNo],
    ) -> Result<(), ModelFault>
        ensures given { OnOk result
            (self.new ≡ with_resident_list self.old resident programmes.now) }
        ensures first_fault { AnswersOrWantsMemory (list_fault self.old.resident_lists resident
            (length self.old.quotas) programmes.now) result }
        ensures owner { IfSome (owner_fault self.old.resident_lists resident) (λ fault.
            result ≡ Err fault) }
        ensures err { OnErr result (self.new ≡ self.old) }
    {
        let owner = resident.0 as usize;
        self.resident_lists.test_owner(owner)?;
        let programme_count = self.quotas.len();
        self.resident_lists
            .give_programmes(owner, programmes, programme_count, &mut self.item_places)?;
        Ok(())
    }

    /// Withdraws a programme. The programme still has its number and quota, and is in no acceptable pair. Its list may
    /// be given before or after the withdrawal. May fail with `NoSuchMember` or `WithdrawnTwice`. The call takes no
    /// memory.
    pub fn withdraw_programme(&mut self, programme: ProgrammeNo) -> Result<(), ModelFault>
        ensures withdrawn { OnOk result (self.new ≡ with_programme_withdrawn self.old programme) }
        ensures fault { AnswersExactly
            (withdrawal_fault self.old.programmes_withdrawn programme) result }
        ensures err { OnErr result (self.new ≡ self.old) }
    {
        let member = programme.0 as usize;
        ranking::test_withdrawal(&self.programmes_withdrawn, member)?;
        self.programmes_withdrawn[member] = true;
        Ok(())
    }

    /// Withdraws a resident, as `withdraw_programme` withdraws a programme.
    pub fn withdraw_resident(&mut self, resident: ResidentNo) -> Result<(), ModelFault>
        ensures withdrawn { OnOk result (self.new ≡ with_resident_withdrawn self.old resident) }
        ensures fault { AnswersExactly
            (withdrawal_fault self.old.residents_withdrawn resident) result }
        ensures err { OnErr result (self.new ≡ self.old) }
    {
        let member = resident.0 as usize;
        ranking::test_withdrawal(&self.residents_withdrawn, member)?;
        self.residents_withdrawn[member] = true;
        Ok(())
    }

    /// Makes the instance. Each list of the instance has, in order, those listed members who list its owner too. A
    /// withdrawn member lists nobody. May fail with `TooManyPairs` or `Memory`; then the builder comes back unchanged.
    pub fn finish(self) -> Result<Instance, FinishRefused>
        ensures made { IfOk result (λ inst. inst ≡ instance_of self) }
        ensures within { OnOk result (IsWithin self.limits (instance_of self)) }
        ensures handed_back { IfErr result (λ refused. refused.builder ≡ self) }
        ensures cause { IfErr result (λ refused. IsFinishFault self refused.fault) }
    {
        match self.finish_with_lists() {
            Ok((instance, _)) => Ok(instance),
            Err(refused) => Err(refused),
        }
    }

    /// Makes the instance as `finish` does, and also returns the lists as they were given. The lists are moved out of
    /// the builder.
    pub fn finish_with_lists(self) -> Result<(Instance, WrittenLists), FinishRefused>
        ensures made { IfOk result (λ made. made.0 ≡ instance_of self) }
        ensures lists { IfOk result (λ made. made.1 ≡ written_of self) }
        ensures within { OnOk result (IsWithin self.limits (instance_of self)) }
        ensures handed_back { IfErr result (λ refused. refused.builder ≡ self) }
        ensures cause { IfErr result (λ refused. IsFinishFault self refused.fault) }
    {
        match self.instance() {
            Ok(instance) => Ok((instance, self.into_lists())),
            Err(fault) => Err(FinishRefused {
                builder: self,
                fault,
            }),
        }
    }

    // The lists as they were given.
    fn into_lists(self) -> WrittenLists
        ensures { result ≡ written_of self }
    {
        let InstanceBuilder {
            alloc: _,
            limits: _,
            quotas: _,
            programme_lists,
            resident_lists,
            programmes_withdrawn: _,
            residents_withdrawn: _,
            item_places: _,
        } = self;
        WrittenLists::new(programme_lists, resident_lists)
    }

    fn instance(&self) -> Result<Instance, ModelFault>
        ensures made { IfOk result (λ inst. inst ≡ instance_of self.now) }
        ensures within { OnOk result (IsWithin self.now.limits (instance_of self.now)) }
        ensures cause { IfErr result (IsFinishFault self.now) }
    {
        let programme_rows = mutual_parts::mutual(
            self.alloc,
            self.limits.pairs(),
            &self.programme_lists,
            &self.programmes_withdrawn,
            &self.resident_lists,
            &self.residents_withdrawn,
        )?;
        let (resident_rows, choices) = mutual_parts::mutual_in_turn(
            self.alloc,
            &self.resident_lists,
            &self.residents_withdrawn,
            &programme_rows,
        )?;
        let pairs = programme_rows.item_count() as u32;
        Ok(Instance {
            quotas: Vec::from_slice(self.alloc, &self.quotas)?,
            programme_lists: programme_rows.into_residents(self.alloc)?,
            resident_lists: resident_rows.into_programmes(self.alloc)?,
            choices,
            pairs,
            programmes_withdrawn: Vec::from_slice(self.alloc, &self.programmes_withdrawn)?,
            residents_withdrawn: Vec::from_slice(self.alloc, &self.residents_withdrawn)?,
        })
    }
}
