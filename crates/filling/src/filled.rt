// The normal form of a filled figure.
ghost use Rattle.std.specs.Prelude.{◌≡◌, List, ℕ, ◌+◌, ◌<◌, ◌≤◌, take, get_or};
ghost use Rattle.rows.specs.Limits.{sheet_marks, atom_room};
ghost use Rattle.rows.specs.declared.Sheet as form;
ghost use Rattle.sheet.specs.Filling.{HeadsRead};
ghost use Rattle.reading.specs.NormalSheet.{packed_normal};
ghost use Rattle.normalising.specs.NormalRows.{past_atoms};
ghost use Rattle.filling.specs.Read.{list_held};
ghost use Rattle.filling.specs.Fill.{figure_held, first_lacking, first_differing};
ghost use Rattle.filling.specs.Filled.{FilledIs};
ghost use Rattle.filling.specs.Parts.{part_room, Exacts};
ghost use Rattle.filling.specs.Glued.{Own, Glues};
ghost use Rattle.filling.specs.Whole.{Linked, whole_atoms, own_whole, Puts};
ghost use Rattle.filling.specs.Classes.{Made};

use crate::classes::{KNOWN, numbered_atoms, numbered_marks};
use crate::glue::{PLACES, own_labels};
use crate::whole::{Whole, whole_of};
use rows::{Context, Sheet};

// Atoms and marks with the numbers of their labels: the normal form of a filled figure with these m marks where its
// counts are within a sheet's limits; else one of them is above its limit.
#[inline(always)]
pub fn numbered_whole(
    whole: Whole,
    labels: &[u16; PLACES],
    marks: [u16; Sheet::MARK_ROOM],
    places: [u16; Sheet::MARK_ROOM],
    m: usize,
) -> Sheet
    requires { (whole.count ≤ atom_room) × ((i : ℕ) → Linked (get_or (whole_atoms whole) i past_atoms)) × (m ≤ sheet_marks) × ((k : ℕ) → get_or places k 0 < part_room) }
    ensures { (list own : List ℕ) (figure : form.Sheet) → figure.marks ≡ marks → figure.marked ≡ places → figure.mark_count ≡ m → Own own → Puts list (own_whole figure) (take figure.context_count figure.contexts) own labels.now whole → (l : List ℕ) × (Glues list figure l × Made list l figure result) }
{
    let mut known = [0u16; KNOWN];
    let mut class_count: usize = 0;
    let placed = whole.atoms;
    let atoms = numbered_atoms(labels, &mut known, &mut class_count, placed, whole.count);
    let marked = numbered_marks(labels, &mut known, &mut class_count, places, m);
    let context = Context::none();
    let contexts = [context; Sheet::CONTEXT_ROOM];
    Sheet {
        atoms,
        atom_count: whole.count,
        contexts,
        context_count: 0,
        marks,
        marked,
        mark_count: m,
        class_count,
    }
}

// The normal form of a figure, by its own, filled from a list that passed and has a filling for each of its contexts;
// notes of each filling read whether its marks are exact.
#[inline(always)]
pub fn normal_filled(
    figure: Sheet,
    list: &[u8],
    heads: [Context; Sheet::CONTEXT_ROOM],
    head_count: usize,
    exact: &mut [u16; Sheet::NUMBERS],
) -> Sheet
    requires { ((text : List ℕ) × (figure ≡ packed_normal (figure_held text))) × HeadsRead list.now heads head_count × Exacts list.now exact.old }
    ensures exacts { Exacts list.now exact.new }
    ensures by_index { (text : List ℕ) → figure ≡ packed_normal (figure_held text) → first_lacking (list_held list.now).contexts (figure_held text).contexts ≡ 0 → first_differing list.now (list_held list.now).contexts ≡ 0 → FilledIs text list.now result }
{
    let mut labels = [0u16; PLACES];
    own_labels(&mut labels);
    let own = figure.atoms;
    let whole = Whole {
        atoms: own,
        count: figure.atom_count,
    };
    let contexts = figure.contexts;
    let n = figure.context_count;
    let whole = whole_of(
        whole,
        contexts,
        n,
        list,
        heads,
        head_count,
        &mut labels,
        exact,
    );
    let marks = figure.marks;
    let places = figure.marked;
    numbered_whole(whole, &labels, marks, places, figure.mark_count)
}
