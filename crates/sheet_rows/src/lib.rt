// The rows of a sheet's roofs, in the order of the listing.
#![tactic(auto)]

ghost use Rattle.std.specs.Prelude.{◌+◌, ◌-◌, ◌≤◌, length};
ghost use Rattle.sheet_figures.specs.Find.{sheet_national};
ghost use Rattle.sheet_rows.specs.SheetRows.{roofs_rows};
ghost use Rattle.text.specs.Written.{Wrote};
ghost use Rattle.upper_items.specs.Uppers.{roof_order};

use figures::AcceptedFigures;
pub use roof_rows::NUMBERS;
use roof_rows::list_roof;
use sets_in_use::figures_for;
use sheet::Sheet;
use sheet_figures::{roof_of, site_of};
use text::Writer;
use upper_items::roof_order;

// Writes the rows of an accepted sheet's roofs, every upper roof before what stands below it. The set in use is found here, and once.
pub fn list_roofs(out: &mut Writer, sheet: Sheet, numbers: &mut [u32; NUMBERS])
    requires { out.old.at + 267344 ≤ length out.old.bytes.now }
    ensures { let s = sheet.entry.items.sheet.now in let n = sheet.entry.items.count in
        Wrote out.old (roofs_rows (sheet_national sheet.entry.store.numbers.now s) s (roof_order s n) (n - 1)) out.new }
{
    let site = site_of(sheet);
    let day = site.day;
    let national = figures_for(sheet.store, day);
    let roofs = roof_order(sheet.items);
    for k in 0..sheet.items.count() - 1 {
        let i = roofs[k];
        let roof = roof_of(sheet, usize::from(i));
        let figures = AcceptedFigures {
            national,
            site,
            roof,
        };
        list_roof(out, &figures, u32::from(i), numbers);
    }
}
