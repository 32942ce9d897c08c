//! Laws of the two tables of library functions: of calls, which the code of units has, and of the
//! functions themselves. The functions here do nothing, and carry the laws alone.
ghost use Rattle.std.specs.Prelude.{◌≡◌, ℕ, Some};
ghost use Rattle.std.specs.List.{flat_map};
ghost use Rattle.wap_unit.specs.Libraries.{library, lib_args};
ghost use Rattle.wap_libs.specs.declared.function.Function.{Function};
ghost use Rattle.wap_libs.specs.Libraries.{function_at, IsPure};
ghost use Rattle.wap_libs.specs.laws.Functions.{functions, called};

/// Calls of the functions that need no browser go by their numbers to the functions of their names.
pub fn functions_have_the_names_of_calls()
    ensures { flat_map called library ≡ functions }
{}

/// A call hands over as many arguments as its function takes, where that needs no browser; and each
/// such function can be called.
pub fn calls_hand_over_what_functions_take()
    ensures handed { (number own count : ℕ) (function : Function)
        → lib_args number own ≡ Some count → function_at number own ≡ Some function
        → IsPure number own count }
    ensures called { (number own count : ℕ) → IsPure number own count
        → lib_args number own ≡ Some count }
{}
