// The version of the interface, as include/gambyre.h has it.
ghost use Rattle.std.specs.Prelude.{◌≡◌};
ghost use Rattle.gambyre.specs.Version.{version_number};

#[unsafe(no_mangle)]
pub extern "C" fn gambyre_version() -> u32
    ensures { result ≡ version_number }
{
    1500
}
