//! Certificates and what is left of them, computed. No function here does anything.
ghost use Rattle.std.specs.Prelude.{◌≡◌, Some, None};
ghost use Rattle.larch_calculus.specs.Example.{numbers, sum_from_nought};
ghost use Rattle.larch_verify_meaning.specs.Acceptance.{verdict};
ghost use Rattle.larch_verify_meaning.specs.Examples.{sample};
ghost use Rattle.larch_verify_meaning.specs.Run.{first_bad};
ghost use Rattle.larch_trim_meaning.specs.Examples.{idle_line, other_result, idle_boxes, without_idle_boxes};
ghost use Rattle.larch_trim_meaning.specs.Examples.{inner_lines, trimmed_inner_lines};
ghost use Rattle.larch_trim_meaning.specs.Trimmed.{trim_lines};

/// A line that nothing names is left out, and the numbers behind it fall by one. What is left is the worked
/// certificate, of which nothing is left out.
pub fn idle_line_is_left_out()
    ensures accepted { verdict numbers sum_from_nought idle_line ≡ None }
    ensures left { trim_lines idle_line ≡ sample }
    ensures again { trim_lines sample ≡ sample }
{}

/// The line before the end of a box is the box's result: with another one the certificate is refused.
pub fn result_is_the_line_before_the_end()
    ensures { verdict numbers sum_from_nought other_result ≡ Some 13 }
{}

/// A box that nothing names is left out with all that stands in it. The constant of a box that is kept has the number
/// that the box gets.
pub fn idle_box_is_left_out()
    ensures good { first_bad numbers idle_boxes ≡ None }
    ensures left { trim_lines idle_boxes ≡ without_idle_boxes }
{}

/// The box of a hypothesis is kept, and a line of an inner box that nothing names is left out.
pub fn box_of_hypothesis_is_kept()
    ensures { trim_lines inner_lines ≡ trimmed_inner_lines }
{}
