// The C symbol that answers the library's version.
ghost use Rattle.std.specs.Prelude.{◌≡◌};

// 10,000 times the first number of the version, plus 100 times the second, plus the third: 0.1.0.
#[unsafe(no_mangle)]
pub extern "C" fn xnb_version() -> u32
    ensures { result ≡ 100 }
{
    builder::version::xnb_version()
}
