// The task compare: whether two sheets are the same.
ghost use Rattle.std.specs.Prelude.{◌≡◌};
ghost use Rattle.rows.specs.Pick.{pick};
ghost use Rattle.placing.specs.Smallest.{smallest};
ghost use Rattle.network.specs.NetIn.{net_in};
ghost use Rattle.network.specs.Ready.{Ready};
ghost use Rattle.comparing.specs.Compare.{is_placed, compare_answer};

use answers::outcome::Compared;
use matching::search::smallest_placing;
use reading::read::read_sheet;
use rows::Sheet;
use rowwise::identical::identical;
use sheet::answer::Answer;

// Whether the second can be placed in the first, as it can where both are equal row by row.
fn compare_normals(sheet: Sheet, other: Sheet) -> Compared
    requires { Ready sheet other }
    ensures { result ≡ pick (is_placed (smallest (net_in sheet) (net_in other))) Compared.Same Compared.Differs }
{
    if identical(sheet, other) {
        return Compared::Same;
    }
    let found = smallest_placing(sheet, other);
    if found.ok {
        return Compared::Same;
    }
    Compared::Differs
}

// The sheets in task order; a text that is refused is named with its row.
pub fn compare(a: &[u8], b: &[u8]) -> Compared
    ensures { result ≡ compare_answer a.now b.now }
{
    let first = read_sheet(a);
    let one = first.answer;
    match one {
        Answer::Refused(why, row) => Compared::Refused(1, why, row),
        Answer::Passed => {
            let second = read_sheet(b);
            let two = second.answer;
            match two {
                Answer::Refused(why, row) => Compared::Refused(2, why, row),
                Answer::Passed => {
                    let sheet = first.normal;
                    let other = second.normal;
                    compare_normals(sheet, other)
                }
            }
        }
    }
}
