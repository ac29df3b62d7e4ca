// An edit list as two lent slices, rows and values.
ghost use Rattle.std.specs.Prelude.{◌≡◌, ◌<◌, length};
ghost use Rattle.basics.specs.Edits.{fresh};

// The i-th row is named at no place before.
pub fn first_named(list_rows: &[usize], i: usize) -> bool
    requires { i < length list_rows.now }
    ensures { result ≡ fresh list_rows.now i }
{
    !list_rows[..i].contains(&list_rows[i])
}
