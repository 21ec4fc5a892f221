//! Lines of an input.

ghost use Rattle.std.specs.Prelude.{◌≡◌, ◌≢◌, ◌≤◌, [], true, false, length, IfOk, OnOk, IfErr, IfSome, Some, None, Err};
ghost use Rattle.dr_meaning.specs.Lines.{longest_line};
ghost use Rattle.dr_outside.specs.Faults.{raised};
ghost use Rattle.dr_lines.specs.Cutting.{pending, last_line, fault_of, rest_of, CutsLine, CutsBytes, BeginsLine, IsEnd, IsTooLong, no_lf};

use dr_lines::{LineFault, Lines};
use dr_outside::Source;

/// As `Lines::next`.
pub fn next_line<S: Source>(lines: &mut Lines, source: &mut S) -> Result<bool, LineFault>
    ensures cuts { IfOk result (λ more. more ≡ true
        → CutsLine (rest_of lines.old (S.shows source.old).left) (last_line lines.new)
        (rest_of lines.new (S.shows source.new).left)) }
    ensures bytes { IfOk result (λ more. more ≡ true
        → CutsBytes (rest_of lines.old (S.shows source.old).left) (last_line lines.new)
        (rest_of lines.new (S.shows source.new).left)) }
    ensures short { IfOk result (λ more. more ≡ true → length (last_line lines.new) ≤ longest_line) }
    ensures end { IfOk result (λ more. more ≡ false
        → IsEnd (rest_of lines.old (S.shows source.old).left) (rest_of lines.new (S.shows source.new).left)) }
    ensures no_line { IfOk result (λ more. more ≡ false → last_line lines.new ≡ []) }
    ensures long { fault_of lines.old ≡ None → result ≡ Err LineFault.TooLong
        → IsTooLong (rest_of lines.old (S.shows source.old).left) }
    ensures cause { fault_of lines.old ≡ None → result ≡ Err LineFault.ReadFault
        → (S.shows source.new).faults ≡ raised (S.shows source.old).faults }
    ensures calm { result ≢ Err LineFault.ReadFault → (S.shows source.new).faults ≡ (S.shows source.old).faults }

    // Where a whole line is read ahead, the source isn't asked.
    ensures ahead { no_lf (pending lines.old) ≡ false → source.new ≡ source.old }
    ensures waits { fault_of lines.old ≡ None → result ≡ Err LineFault.ReadFault → no_lf (pending lines.old) ≡ true }
    ensures begins { fault_of lines.old ≡ None → result ≡ Err LineFault.ReadFault
        → BeginsLine (rest_of lines.old (S.shows source.old).left) (S.shows source.new).left }

    // After an error the source isn't asked again.
    ensures stops { IfErr result (λ e. fault_of lines.new ≡ Some e) }
    ensures repeats { IfSome (fault_of lines.old) (λ e. result ≡ Err e) }
    ensures rests { IfSome (fault_of lines.old) (λ _. source.new ≡ source.old) }
    ensures goes_on { OnOk result (fault_of lines.new ≡ None) }
{
    lines.next(source)
}
