// What the library is, for callers that were written against a header.
ghost use Rattle.std.specs.Prelude.{◌≡◌};
ghost use Rattle.engine.specs.Layout.{layout_number};

#[unsafe(no_mangle)]
pub extern "C" fn turepawon_abi() -> u32
    ensures { result ≡ layout_number }
{
    engine::abi::turepawon_abi()
}
