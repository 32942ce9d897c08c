//! Laws of the table of instructions, and of forms. The functions here do nothing, and carry the
//! laws alone.
ghost use Rattle.std.specs.Prelude.{◌≡◌};
ghost use Rattle.wap_unit.specs.Rows.{rows};
ghost use Rattle.wap_asm.specs.Exact.{IsExact};
ghost use Rattle.wap_asm.specs.Settling.{AreLeast, IsTest};

use wap_unit::ROWS;

/// What a row spells is read back, and what is read is spelled so.
pub fn table_is_exact()
    ensures { IsExact }
{}

/// The table of the code is that of the definitions.
pub fn table_is_listed()
    ensures { ROWS ≡ rows }
{}

/// The sizes at which forms settle are the least that hold all operands.
pub fn sizes_are_least()
    ensures { AreLeast }
{}

/// Forms that a test which computes takes may be placed.
pub fn placeable_is_tested()
    ensures { IsTest }
{}
