// The four kinds of load. Each is one step on one word, which keeps the segment's rule.
ghost use Rattle.std.specs.Prelude.{◌≡◌, ◌+◌, ◌<◌, [], length, slice_index};
ghost use Rattle.shm_segment.specs.Words.{body_places};
ghost use Rattle.shm_monitor.specs.Loads.{counted, validated, read, recounted, IsFirstCount, IsRecounted};
ghost use Rattle.shm_monitor.specs.MonitorView.{IsMonitoring};

use crate::plays::{BodyWord, FirstCount, LastCount, Valid};
use shm_segment::{BODY, COUNT, Segment, TableSeat, VALID};

/// The first count, which begins a reading.
pub(crate) fn load_count(segment: &Segment, seat: &mut TableSeat) -> u32
    requires { IsMonitoring segment.now seat.old.table_id seat.old.me }
    ensures seat { (seat.new.table_id ≡ seat.old.table_id) × (seat.new.me ≡ (counted seat.old.me.0 result, [])) }
    ensures first { IsFirstCount seat.old.me.0 result }
{
    segment
        .table
        .shared
        .load::<FirstCount>(seat, usize::from(COUNT)) as u32
}

/// valid.
pub(crate) fn load_valid(segment: &Segment, seat: &mut TableSeat) -> u64
    requires part { IsMonitoring segment.now seat.old.table_id seat.old.me }
    requires reading { length seat.old.me.0.reading ≡ 1 }
    ensures { (seat.new.table_id ≡ seat.old.table_id) × (seat.new.me ≡ (validated seat.old.me.0 result, [])) }
{
    segment.table.shared.load::<Valid>(seat, usize::from(VALID))
}

/// The word at this place of the body.
pub(crate) fn load_body(segment: &Segment, seat: &mut TableSeat, place: u8) -> (u8, u64)
    requires part { IsMonitoring segment.now seat.old.table_id seat.old.me }
    requires place { place < 9 }
    requires reading { length seat.old.me.0.reading ≡ place + 2 }
    ensures word { result.0 ≡ slice_index body_places place }
    ensures seat { (seat.new.table_id ≡ seat.old.table_id) × (seat.new.me ≡ (read seat.old.me.0 (slice_index body_places place) result.1, [])) }
{
    let word = BODY[usize::from(place)];
    (
        word,
        segment
            .table
            .shared
            .load::<BodyWord>(seat, usize::from(word)),
    )
}

/// The second count, which ends the reading.
pub(crate) fn load_count_again(segment: &Segment, seat: &mut TableSeat) -> u32
    requires part { IsMonitoring segment.now seat.old.table_id seat.old.me }
    requires reading { length seat.old.me.0.reading ≡ 11 }
    ensures seat { (seat.new.table_id ≡ seat.old.table_id) × (seat.new.me ≡ (recounted seat.old.me.0 result, [])) }
    ensures last { IsRecounted seat.old.me.0 result }
{
    segment
        .table
        .shared
        .load::<LastCount>(seat, usize::from(COUNT)) as u32
}
