// Rows put in the places that they carry, in linear time and with no memory besides. While rows are rearranged, the column UP of each is the
// number of rows that must stand before it; else it is 0, since none of them is open.
ghost use Rattle.std.specs.Prelude.{◌≡◌};
ghost use Rattle.rewrite_program.specs.Placing.{rows_at, exchange_f, place_one_f, place_f, clear_places_f, number_rows_f};

use meaning::RecordId;
use tables::record;

// The rows after i and after j others change places.
#[tactic(auto, unfolding(crate::specs::Placing::exchange_f))]
fn exchange(records: &mut [u16], i: RecordId, j: RecordId)
    ensures { records.new ≡ exchange_f records.old i.0 j.0 }
{
    let r = tables::row_after(records, i);
    let s = tables::row_after(records, j);
    tables::put_row(records, i, s);
    tables::put_row(records, j, r);
}

// The row after i others is passed if it stands in its place, and else put there.
#[tactic(auto, unfolding(crate::specs::Placing::place_one_f))]
fn place_one(records: &mut [u16], i: RecordId) -> RecordId
    ensures { rows_at records.new result.0 ≡ place_one_f (rows_at records.old i.0) }
{
    let p = RecordId(tables::column(records, i, record::UP));
    if p.0 == i.0 {
        RecordId(i.0.saturating_add(1))
    } else {
        exchange(records, i, p);
        i
    }
}

// Two turns for each row of the largest table.
const TURNS: u32 = 131070;

// The rows after `from` up to `to` come to stand in their places. Each turn passes a row or puts one in its place, so that two for each row
// are enough; the count ends the loop for any numbers.
#[tactic(auto, unfolding(crate::specs::Placing::place_f), using(tables::specs::Loops::go_on, tables::specs::Loops::run_out, tables::specs::Loops::stopped))]
pub fn place(records: &mut [u16], from: RecordId, to: RecordId)
    ensures { records.new ≡ place_f records.old from.0 to.0 }
{
    let mut at = from;
    for _ in 0..TURNS {
        if to.0 <= at.0 {
            break;
        }
        at = place_one(records, at);
    }
}

// n rows after `from` get the places `first`, `first` + 1 and so on.
#[tactic(auto, unfolding(crate::specs::Placing::number_rows_f), using(tables::specs::Loops::last_turn))]
pub fn number_rows(records: &mut [u16], from: RecordId, n: u16, first: RecordId)
    ensures { records.new ≡ number_rows_f records.old from.0 n first.0 }
{
    for k in 0..n {
        let at = RecordId(from.0.saturating_add(k));
        tables::put_column(records, at, record::UP, first.0.saturating_add(k));
    }
}

// n rows after `from` carry no places any more.
#[tactic(auto, unfolding(crate::specs::Placing::clear_places_f), using(tables::specs::Loops::last_turn))]
pub fn clear_places(records: &mut [u16], from: RecordId, n: u16)
    ensures { records.new ≡ clear_places_f records.old from.0 n }
{
    for k in 0..n {
        tables::put_column(records, RecordId(from.0.saturating_add(k)), record::UP, 0);
    }
}
