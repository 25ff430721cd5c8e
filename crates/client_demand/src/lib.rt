// Writes each request with one answer, and the Reset, as a frame at the front of the buffer.
#![tactic(auto)]

ghost use Rattle.std.specs.Prelude.{◌≡◌, cond, [], length};
ghost use Rattle.paper.specs.Client.{demand_frame};
ghost use Rattle.paper.specs.Frame.{frame_bytes};
ghost use Rattle.paper.specs.Flash.{info_request, erase_request, write_request, verify_request};
ghost use Rattle.image.specs.Images.{paper_info};
ghost use Rattle.frame.specs.Writing.{placed};
ghost use Rattle.client_demand.specs.Demands.{head_for, flags_of, reset_of, demand_of};

use client::{Job, Reset};
use frame::Head;
use image::Info;
use wire::{Short, Word};

// The head of a request's frame.
fn head(command: u8, flags: u8, address: u32) -> Head
    ensures { result ≡ head_for command flags address }
{
    Head {
        command,
        status: wire::REQUEST,
        flags,
        address,
    }
}

pub fn write_info(buf: &mut [u8]) -> Result<usize, Short>
    ensures { record { answer = result; bytes = buf.new }
        ≡ placed (frame_bytes (demand_frame info_request [])) buf.old }
{
    frame::place_frame(head(wire::INFO, 0, 0), &[], 0, buf)
}

// The payload is the erase size.
pub fn write_erase(info: Info, address: u32, buf: &mut [u8]) -> Result<usize, Short>
    ensures { record { answer = result; bytes = buf.new }
        ≡ placed (frame_bytes (demand_frame (erase_request (paper_info info) address) [])) buf.old }
{
    let size = info.erase_size.to_bytes();
    frame::place_frame(head(wire::ERASE, 0, address), &size, 0, buf)
}

// The payload is the image from the offset to the chunk's end, then FF. FLUSH is on the last Write.
pub fn write_write(info: Info, offset: u64, image: &[u8], buf: &mut [u8]) -> Result<usize, Short>
    ensures { record { answer = result; bytes = buf.new }
        ≡ placed (frame_bytes (demand_frame (write_request (paper_info info) (length image.now) offset)
        image.now)) buf.old }
{
    let n = image.len();
    let size = image::writes::size(info, n, offset);
    let held = image::writes::image_bytes(n, offset, size);
    let flags = wire::flag(image::writes::last(info, n, offset), wire::FLUSH);
    let part = image::writes::part(image, offset, size);
    frame::place_frame(
        head(wire::WRITE, flags, (offset % 0x1_0000_0000) as u32),
        part,
        size - held,
        buf,
    )
}

// The address is the image's length.
pub fn write_verify(n: usize, buf: &mut [u8]) -> Result<usize, Short>
    ensures { record { answer = result; bytes = buf.new }
        ≡ placed (frame_bytes (demand_frame (verify_request n) [])) buf.old }
{
    frame::place_frame(
        head(wire::VERIFY, 0, (n % 0x1_0000_0000) as u32),
        &[],
        0,
        buf,
    )
}

// BOOTLOADER for a reset into the bootloader, BAUD if a baud is given.
fn reset_flags(reset: Reset) -> u8
    ensures { result ≡ flags_of reset }
{
    wire::flag(reset.bootloader, wire::BOOTLOADER) + wire::flag(reset.given, wire::BAUD)
}

// A Reset's address: the baud to store, or 0.
fn address_of(reset: Reset) -> u32
    ensures { result ≡ cond reset.given reset.baud 0 }
{
    if reset.given {
        return reset.baud as u32;
    }
    0
}

pub fn write_reset(reset: Reset, buf: &mut [u8]) -> Result<usize, Short>
    ensures { record { answer = result; bytes = buf.new }
        ≡ placed (frame_bytes (demand_frame (reset_of reset) [])) buf.old }
{
    let flags = reset_flags(reset);
    frame::place_frame(head(wire::RESET, flags, address_of(reset)), &[], 0, buf)
}

// Writes the request of a job, with the image lent.
pub fn write_demand(job: Job, image: &[u8], buf: &mut [u8]) -> Result<usize, Short>
    ensures { record { answer = result; bytes = buf.new }
        ≡ placed (frame_bytes (demand_frame (demand_of job (length image.now)) image.now))
        buf.old }
{
    match job {
        Job::Informing(_) => write_info(buf),
        Job::Erasing(_, info, address) => write_erase(info, address, buf),
        Job::Writing(_, info, offset, _) => write_write(info, offset, image, buf),
        Job::Verifying(_, _) => write_verify(image.len(), buf),
        Job::Resetting(reset) => write_reset(reset, buf),
    }
}
