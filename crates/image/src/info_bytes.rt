// The 18 bytes of the device information, in a payload or in a host's buffers: loaded from a place, and saved to one.
ghost use Rattle.std.specs.Prelude.{◌≡◌, ◌++◌, ◌+◌, ◌≤◌, length, take, drop};
ghost use Rattle.image.specs.InfoBytes.{no_info, geometry, saved_info, loaded_info};

use crate::Info;

// Every field zero.
#[tactic(auto, unfolding(crate::specs::InfoBytes::no_info))]
pub fn none() -> Info
    ensures { result ≡ no_info }
{
    Info {
        capacity: 0,
        erase_size: 0,
        boot_version: 0,
        app_version: 0,
        mode: 0,
        boot_baud: 0,
        compat: 0,
        max_payload: 0,
    }
}

#[tactic(auto, unfolding(crate::specs::InfoBytes::loaded_info))]
pub fn load(bytes: &[u8], at: usize) -> Info
    requires { at + 18 ≤ length bytes.now }
    ensures { result ≡ loaded_info at bytes.now }
{
    Info {
        capacity: wire::get(bytes, at),
        erase_size: wire::get(bytes, at + 4),
        boot_version: wire::get(bytes, at + 6),
        app_version: wire::get(bytes, at + 8),
        mode: bytes[at + 10],
        boot_baud: bytes[at + 11],
        compat: wire::get(bytes, at + 12),
        max_payload: wire::get(bytes, at + 16),
    }
}

// Saves the capacity, the erase size and the versions.
fn save_geometry(bytes: &mut [u8], at: usize, i: Info)
    requires { at + 10 ≤ length bytes.old }
    ensures { bytes.new
        ≡ take at bytes.old ++ geometry i ++ drop (at + 10) bytes.old }
{
    wire::put(bytes, at, i.capacity);
    wire::put(bytes, at + 4, i.erase_size);
    wire::put(bytes, at + 6, i.boot_version);
    wire::put(bytes, at + 8, i.app_version);
}

pub fn save(bytes: &mut [u8], at: usize, i: Info)
    requires { at + 18 ≤ length bytes.old }
    ensures { bytes.new
        ≡ take at bytes.old ++ saved_info i ++ drop (at + 18) bytes.old }
{
    save_geometry(bytes, at, i);
    wire::put(bytes, at + 10, i.mode);
    wire::put(bytes, at + 11, i.boot_baud);
    wire::put(bytes, at + 12, i.compat);
    wire::put(bytes, at + 16, i.max_payload);
}
