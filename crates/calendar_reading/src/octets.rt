// The octets from a place on, with the folds left out.
ghost use Rattle.std.specs.Prelude.{◌≡◌, ◌≤◌, length, drop};
ghost use Rattle.calendar_format.specs.Folding.{fold_here, unfolded};
ghost use Rattle.calendar_format.specs.Texts.{after};
ghost use Rattle.calendar_reading.specs.Places.{Past, OctetIs, PlaceIs, CopiedIs, nothing};

// An octet, and the place behind it.
#[derive(Clone, Copy)]
struct Octet {
    octet: u8,
    next: usize,
}

// A line's end and a blank stand at the place.
fn fold_at(bytes: &[u8], at: usize) -> bool
    requires { at ≤ length bytes.now }
    ensures { result ≡ fold_here (drop at bytes.now) }
{
    if bytes.len() - at < 3 {
        return false;
    }
    (bytes[at] == 13) & ((bytes[at + 1] == 10) & ((bytes[at + 2] == 32) | (bytes[at + 2] == 9)))
}

// The next place where no fold stands. A `while`: a fold is three bytes, and how many stand here is not known before.
fn past_folds(bytes: &[u8], at: usize) -> usize
    requires { at ≤ length bytes.now }
    ensures { Past bytes.now at result }
{
    let mut place = at;
    while fold_at(bytes, place) {
        place += 3;
    }
    place
}

// The next octet, if one is left.
fn next_octet(bytes: &[u8], at: usize) -> Option<Octet>
    requires { at ≤ length bytes.now }
    ensures { OctetIs bytes.now (unfolded (drop at bytes.now)) result }
{
    let place = past_folds(bytes, at);
    if bytes.len() <= place {
        return None;
    }
    Some(Octet {
        octet: bytes[place],
        next: place + 1,
    })
}

// Behind a text, if it stands at the place.
pub fn after_text(bytes: &[u8], at: usize, text: &[u8]) -> Option<usize>
    requires { at ≤ length bytes.now }
    ensures { PlaceIs bytes.now (after text.now (unfolded (drop at bytes.now))) result }
{
    let mut place = at;
    for sought in text {
        let there = next_octet(bytes, place)?;
        if there.octet != *sought {
            return None;
        }
        place = there.next;
    }
    Some(place)
}

// Copies as many octets as there is room for, if there are so many, and answers the place behind them.
pub fn copy_octets(bytes: &[u8], at: usize, copy: &mut [u8]) -> Option<usize>
    requires { at ≤ length bytes.now }
    ensures { CopiedIs bytes.now (unfolded (drop at bytes.now)) (length copy.old) copy.new result }
{
    let mut place = at;
    for i in 0..copy.len() {
        let there = next_octet(bytes, place)?;
        copy[i] = there.octet;
        place = there.next;
    }
    Some(place)
}

// Whether nothing is left.
pub fn ended(bytes: &[u8], at: usize) -> bool
    requires { at ≤ length bytes.now }
    ensures { result ≡ nothing (unfolded (drop at bytes.now)) }
{
    next_octet(bytes, at).is_none()
}
