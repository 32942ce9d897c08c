//! What follows from the definitions that the contracts cite. None of these functions does
//! anything.
ghost use Rattle.std.specs.Prelude.{◌≡◌, ℕ, List, Some, None, Result, true};
ghost use Rattle.std.specs.List.{AllByRecursion};
ghost use Rattle.wap_push.specs.declared.fault.PushFault.{PushFault};
ghost use Rattle.wap_push.specs.declared.indication.Indication.{Indication};
ghost use Rattle.wap_push.specs.Inbox.{is_of, winner_of, HaveWinners, IsWinner};
ghost use Rattle.wap_push.specs.Pushes.{ReadsPushes, push_at};

/// The winners of a list of pushes are one list, so its inbox is one too.
pub fn winners_are_one()
    ensures { (pushes winners others : List Indication) → HaveWinners pushes winners
        → HaveWinners pushes others → winners ≡ others }
{}

/// The winner that is calculated is the one that the relation says; where there is none, nothing of
/// the identifier was pushed.
pub fn winners_are_the_latest()
    ensures found { (pushes : List Indication) (id : List ℕ) (winner : Indication)
        → winner_of pushes id ≡ Some winner → IsWinner pushes id winner }
    ensures none { (pushes : List Indication) (id : List ℕ) → winner_of pushes id ≡ None
        → AllByRecursion (λ (push : Indication). is_of id push ≡ true → ⊥) pushes }
{}

/// What reads all pushed bytes as what they are is one: the calculation.
pub fn pushes_are_read_one_way()
    ensures some { ReadsPushes push_at }
    ensures one { (push : List ℕ → Result Indication PushFault) → ReadsPushes push
        → push_at ≡ push }
{}
