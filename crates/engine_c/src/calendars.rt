// A driver's calendar, written and read back.
ghost use Rattle.std.specs.Prelude.{◌≡◌};
ghost use Rattle.calendar_reading.specs.Reading.{reading};
ghost use Rattle.driver_calendar.specs.Calendars.{calendaring};
ghost use Rattle.engine.specs.Asked.{shaped};
ghost use Rattle.engine.specs.Told.{exported, calendar_told, imported, duties_told};

#[unsafe(no_mangle)]
pub extern "C" fn turepawon_driver_calendar(
    rows: usize,
    values: usize,
    edge_rule: u8,
    marks: &[u8],
    keys: &[usize],
    ranks: &[i64],
    records: &[usize],
    members: &[usize],
    driver: usize,
    stamp: &[u8],
    out: &mut [u8],
    written: &mut usize,
) -> u8
    ensures { exported result written.new out.new
        ≡ calendar_told (calendaring (shaped rows values edge_rule) marks.now keys.now ranks.now records.now members.now driver stamp.now out.old) written.old }
{
    engine::calendars::turepawon_driver_calendar(
        rows, values, edge_rule, marks, keys, ranks, records, members, driver, stamp, out, written,
    )
}

#[unsafe(no_mangle)]
pub extern "C" fn turepawon_read_calendar(
    bytes: &[u8],
    out_rows: &mut [usize],
    out_days: &mut [usize],
    count: &mut usize,
) -> u8
    ensures { imported result count.new out_rows.new out_days.new
        ≡ duties_told (reading bytes.now out_rows.old out_days.old) count.old }
{
    engine::calendars::turepawon_read_calendar(bytes, out_rows, out_days, count)
}
