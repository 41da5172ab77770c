// The rows of one filling, as a part of any list of fillings.
ghost use Rattle.std.specs.Prelude.{◌≡◌};
ghost use Rattle.sheet.specs.Filling.{filling_of};

use crate::read::read_list;
use sheet::answer::Answer;
use sheet::part::part_for;

// The filling of one context, its head first; empty where the context has no filling there or a row of the list is refused.
pub fn filling_of(list: &[u8], number: u16) -> &[u8]
    ensures { result.now ≡ filling_of list.now number }
{
    let reading = read_list(list);
    let answer = reading.answer;
    match answer {
        Answer::Passed => {
            let heads = reading.normal.contexts;
            part_for(list, heads, reading.normal.context_count, number)
        }
        Answer::Refused(_, _) => &list[0..0],
    }
}
