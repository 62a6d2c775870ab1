//! What a withdrawal means for the instance.
ghost use Rattle.std.specs.Prelude.{◌≡◌, ◌↔◌, ℕ};
ghost use Rattle.match_model.specs.Instance.{Acceptable};
ghost use Rattle.match_model.specs.Draft.{Draft, instance_of};
ghost use Rattle.match_model.specs.Withdrawals.{ListOneAnother, AreMutualWhereAllHere, struck, with_flags};

/// How withdrawals change the instance of a draft. A pair is acceptable exactly if each member listed the other and
/// neither is withdrawn. Apart from the flags, the instance is that of a draft without withdrawals in which
/// withdrawn members have empty lists and stand on no list. If nobody is withdrawn, the lists are the mutual parts
/// of the given lists.
pub fn law_withdrawals()
    ensures acceptable { (d : Draft) (r p : ℕ)
        → Acceptable (instance_of d) r p ↔ ListOneAnother d r p }
    ensures struck { (d : Draft) → instance_of d
        ≡ with_flags (instance_of (struck d)) d.programmes_withdrawn d.residents_withdrawn }
    ensures all_here { (d : Draft) → AreMutualWhereAllHere d
        (instance_of d).programme_lists d.programme_lists d.resident_lists }
    ensures all_here_too { (d : Draft) → AreMutualWhereAllHere d
        (instance_of d).resident_lists d.resident_lists d.programme_lists }
{}
