// Room that is made on the spot: for the ranks and the index of 128 rows.

#![tactic(auto)]

ghost use Rattle.std.specs.Prelude.{◌≡◌};
ghost use Rattle.listing_room.specs.Room.{no_ranks, records_room, members_room};

pub fn no_ranks() -> [i64; 256]
    ensures { result ≡ no_ranks }
{
    [0; 256]
}

pub fn records_room() -> [usize; 640]
    ensures { result ≡ records_room }
{
    [0; 640]
}

pub fn members_room() -> [usize; 387]
    ensures { result ≡ members_room }
{
    [0; 387]
}
