//! Laws over the order of reactions.
ghost use Rattle.std.specs.Prelude.{◌≡◌, ℕ, true, false, List};
ghost use Rattle.warp_step.specs.Program.{Program};
ghost use Rattle.warp_step.specs.Order.{is_admissible};
ghost use Rattle.warp_prog.specs.Order.{loader_order, has_no_order};

/// A law: where some order of a program's reactions is admissible, the loader's is; and where the loader's is not, none
/// is, which is what `Causality` says of a file.
pub fn loader_order()
    ensures found { (P : Program) (order : List ℕ) → is_admissible P order ≡ true →
        is_admissible P (loader_order P) ≡ true }
    ensures none { (P : Program) → has_no_order P ≡ true → (order : List ℕ) → is_admissible P order ≡ false }
    ensures some { (P : Program) → has_no_order P ≡ false → is_admissible P (loader_order P) ≡ true }
{}
