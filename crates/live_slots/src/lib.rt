// The live slots of a table as a list of rows.
#![tactic(auto)]

ghost use Rattle.std.specs.Prelude.{◌≡◌, ◌≤◌, length};
ghost use Rattle.lists.specs.Lists.{put, keep, from};
ghost use Rattle.definition.specs.Table.{flagged};

use table_checks::Table;

// Writes the live slots below the slot count, ascending, to the front of the list.
pub fn list_live(table: Table<'_>, rows: &mut [usize])
    requires { (table.head.slots ≤ length table.flags.now) × (length (keep (flagged table.flags.now) (from 0 table.head.slots)) ≤ length rows.old) }
    ensures { rows.new ≡ put rows.old 0 (keep (flagged table.entry.flags.now) (from 0 table.entry.head.slots)) }
{
    // The place is counted beside the slots: tried as a zip of `rows.iter_mut()` with the filtered flags, of which a proof does not know what was
    // written.
    let mut n = 0;
    for (i, &flag) in table.flags[..table.head.slots].iter().enumerate() {
        if flag != 0 {
            rows[n] = i;
            n += 1;
        }
    }
}
