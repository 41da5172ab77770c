// The figure links that the marks decide.
ghost use Rattle.std.specs.Prelude.{ℕ, ◌≤◌, List};
ghost use Rattle.rows.specs.Limits.{sheet_marks};
ghost use Rattle.rows.specs.declared.Sheet.{Sheet as NormalForm};
ghost use Rattle.network.specs.Ready.{AtomsIn};
ghost use Rattle.candidates.specs.Marks.{MarkLinks, MarksIn};
ghost use Rattle.deciding.specs.Links.{Told};
ghost use Rattle.deciding.specs.Agrees.{PlaceOf, AllAmong, AtomsAgree, MarksPut};

use crate::links::enter;
use rows::Sheet;

// The index of a mark among the first `count`, or `count`.
fn place_of(marks: &[u16; Sheet::MARK_ROOM], count: usize, mark: u16) -> usize
    requires { count ≤ sheet_marks }
    ensures { PlaceOf marks.now count mark result }
{
    for i in 0..count {
        if marks[i] == mark {
            return i;
        }
    }
    count
}

// The figure's m marks are among the sheet's n marks, and their links go to those of the sheet's marks.
pub(crate) fn put_marks<'a>(
    marks: &'a [u16; Sheet::MARK_ROOM],
    marked: &'a [u16; Sheet::MARK_ROOM],
    n: usize,
    figure_marks: &'a [u16; Sheet::MARK_ROOM],
    figure_marked: &'a [u16; Sheet::MARK_ROOM],
    m: usize,
    to: &mut [u16; Sheet::LINKS],
) -> bool
    requires { (n ≤ sheet_marks) × MarkLinks figure_marked.now m }
    ensures { (sheet figure : NormalForm) → MarksIn sheet marks.now marked.now n → MarksIn figure figure_marks.now figure_marked.now m → (atoms : List ℕ) → AtomsIn sheet figure.atom_count atoms → Told sheet figure atoms to.old → AtomsAgree sheet figure atoms to.old → MarksPut sheet figure atoms to.new result }
{
    for i in 0..m {
        let j = place_of(marks, n, figure_marks[i]);
        if j == n {
            return false;
        }
        if !enter(&mut *to, (figure_marked[i] - 1) as usize, marked[j]) {
            return false;
        }
    }
    true
}

// The sheet's n marks are among the figure's m marks.
pub(crate) fn marks_back<'a>(
    marks: &'a [u16; Sheet::MARK_ROOM],
    n: usize,
    figure_marks: &'a [u16; Sheet::MARK_ROOM],
    m: usize,
) -> bool
    requires { (n ≤ sheet_marks) × (m ≤ sheet_marks) }
    ensures { AllAmong marks.now n figure_marks.now m result }
{
    for i in 0..n {
        let j = place_of(figure_marks, m, marks[i]);
        if j == m {
            return false;
        }
    }
    true
}
