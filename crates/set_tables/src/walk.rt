// The records of a set that was looked at, one after another.
ghost use Rattle.std.specs.Prelude.{◌≡◌};
ghost use Rattle.sets.specs.Set.{row, held_in};
ghost use Rattle.set_tables.specs.Told.{row_in, ReadableSet};

// The records of a set that are left.
#[derive(Drop)]
pub struct Records<'a> {
    rest: &'a [u8],
    ghost framed: { held_in rest.now ≡ row (row_in rest.now) },
}

impl<'a> Records<'a> {
    ghost use Rattle.std.specs.Prelude.{[], get_or, drop};
    ghost use Rattle.set_tables.specs.Records.{rows_left};

    // All records of a set.
    pub fn of(memory: &'a [u8]) -> Records<'a>
        requires { ReadableSet memory.now }
        ensures { rows_left result ≡ row_in memory.now }
    {
        Records { rest: memory }
    }

    // The next record; an empty one where none is left.
    pub fn front(&mut self) -> &'a [u8]
        ensures record { result.now ≡ get_or (rows_left self.old) 0 [] }
        ensures left { rows_left self.new ≡ drop 1 (rows_left self.old) }
    {
        self.next().unwrap_or(&[])
    }
}

impl<'a> Iterator for Records<'a> {
    ghost use Rattle.std.specs.Iterator.{item_count, YieldsFirstBy};
    ghost use Rattle.set_tables.specs.Records.{rows_left};

    type Item = &'a [u8];

    ghost next_gives = { YieldsFirstBy (λ r. r.now) rows_left };

    ghost remaining = { item_count rows_left };

    fn next(&mut self) -> Option<&'a [u8]> {
        let size = wire::u16_at(self.rest, 0) as usize;
        if size == 0 {
            return None;
        }
        let (record, rest) = self.rest.split_at(size);
        self.rest = rest;
        Some(record)
    }
}
