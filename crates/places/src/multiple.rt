ghost use Rattle.std.specs.Prelude.{◌≡◌, ◌+◌, ◌-◌, ◌%◌, ◌^◌, ◌<◌};

/// The least multiple of `align` that is not below `at`.
pub fn up(at: u64, align: u64) -> u64
    requires some { 0 < align }
    requires room { at + align < 2 ^ 64 }
    ensures { result ≡ at + (align - at % align) % align }
{
    at + (align - at % align) % align
}
