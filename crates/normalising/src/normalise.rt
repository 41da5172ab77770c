// The tasks normalise: the normal text of a sheet or a figure, into an output buffer.
ghost use Rattle.std.specs.Prelude.{◌≡◌, false, length};
ghost use Rattle.sheet.specs.Kinds.{is_list};
ghost use Rattle.normalising.specs.NormalText.{normalised_answer, normalised_slip};

use crate::normal_text::write_normal;
use reading::read::read_text;
use rows::Sheet;
use sheet::answer::{Answer, Refusal};
use sheet::kind::Kind;

// The bytes written; the buffer is too short; or the text is refused at a row.
#[derive(Clone, Copy)]
pub enum Normalised {
    Written(usize),
    ShortSlip,
    Refused(Refusal, usize),
}

// A text of this kind, which is no list of fillings.
fn normalise(kind: Kind, text: &[u8], out: &mut [u8]) -> Normalised
    requires { is_list kind ≡ false }
    ensures value { result ≡ normalised_answer kind text.now (length out.old) }
    ensures out_after { out.new ≡ normalised_slip kind text.now out.old }
{
    if out.len() < Sheet::SLIP {
        return Normalised::ShortSlip;
    }
    let reading = read_text(kind, [0; Sheet::NUMBERS], text);
    let answer = reading.answer;
    match answer {
        Answer::Passed => {
            let normal = reading.normal;
            let bytes = write_normal(normal, out);
            Normalised::Written(bytes)
        }
        Answer::Refused(why, row) => Normalised::Refused(why, row),
    }
}

pub fn normalise_sheet(text: &[u8], out: &mut [u8]) -> Normalised
    ensures value { result ≡ normalised_answer Kind.Plain text.now (length out.old) }
    ensures out_after { out.new ≡ normalised_slip Kind.Plain text.now out.old }
{
    normalise(Kind::Plain, text, out)
}

pub fn normalise_figure(text: &[u8], out: &mut [u8]) -> Normalised
    ensures value { result ≡ normalised_answer Kind.Figure text.now (length out.old) }
    ensures out_after { out.new ≡ normalised_slip Kind.Figure text.now out.old }
{
    normalise(Kind::Figure, text, out)
}
