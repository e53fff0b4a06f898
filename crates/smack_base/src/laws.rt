ghost use Rattle.std.specs.Prelude.{◌≡◌, true};
ghost use Rattle.smack_base.specs.declared.modes.Modes.{Modes};
ghost use Rattle.smack_base.specs.Modes.{holds, union};

/// A law of mode sets: modes that a set holds add nothing to it, and a union holds what was added.
#[tactic(auto, using(crate::proofs::HeldModes::held_add_nothing, crate::proofs::HeldModes::union_holds))]
pub fn holding_is_inclusion()
    ensures nothing { (m n : Modes) → holds m n ≡ true → union m n ≡ m }
    ensures added { (m n : Modes) → holds (union m n) n ≡ true }
{}
