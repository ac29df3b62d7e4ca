// What the library is, for callers that were written against a header.
ghost use Rattle.std.specs.Prelude.{◌≡◌};
ghost use Rattle.engine.specs.Layout.{layout_number};

// The number of the layout in which tables, index and structs are lent.
pub fn turepawon_abi() -> u32
    ensures { result ≡ layout_number }
{
    1
}
