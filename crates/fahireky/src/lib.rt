// Every call of the client over numbers and byte slices, as the crate `fahireky_c` exports it.
// The client is kept in a buffer that the host lends, and each answer is written to another. Kept as a call for each,
// some with like bodies: hosts call them by these names, and the two buffers are C's.
#![tactic(auto)]

ghost use Rattle.std.specs.Prelude.{◌≡◌};
ghost use Rattle.host_buffers.specs.Exports as Export;

use client::{Outcome, Says};

pub fn fahireky_state_size() -> usize
    ensures { result ≡ Export.state_size }
{
    host_state::size()
}

pub fn fahireky_answer_size() -> usize
    ensures { result ≡ Export.answer_size }
{
    host_answer::size()
}

pub fn fahireky_start_select(state: &mut [u8], prefix: &[u8], bits: usize, answer: &mut [u8]) -> u64
    ensures { record { code = result; state = state.new; answer = answer.new }
        ≡ Export.start_select state.old prefix.now bits answer.old }
{
    host_buffers::starting(
        state,
        answer,
        |f| client_start::open_select(f, prefix, bits),
    )
}

pub fn fahireky_start_deselect(state: &mut [u8], answer: &mut [u8]) -> u64
    ensures { record { code = result; state = state.new; answer = answer.new }
        ≡ Export.start_deselect state.old answer.old }
{
    host_buffers::starting(state, answer, |f| client_start::open_deselect(f))
}

pub fn fahireky_start_attach(state: &mut [u8], answer: &mut [u8]) -> u64
    ensures { record { code = result; state = state.new; answer = answer.new }
        ≡ Export.start_attach state.old answer.old }
{
    host_buffers::starting(state, answer, |f| client_start::open_attach(f))
}

pub fn fahireky_start_attach_to(state: &mut [u8], prefix: &[u8], answer: &mut [u8]) -> u64
    ensures { record { code = result; state = state.new; answer = answer.new }
        ≡ Export.start_attach_to state.old prefix.now answer.old }
{
    host_buffers::starting(state, answer, |f| client_start::open_attach_to(f, prefix))
}

pub fn fahireky_start_discover(state: &mut [u8], prefix: &[u8], answer: &mut [u8]) -> u64
    ensures { record { code = result; state = state.new; answer = answer.new }
        ≡ Export.start_discover state.old prefix.now answer.old }
{
    host_buffers::starting(state, answer, |f| client_start::open_discover(f, prefix))
}

pub fn fahireky_start_info(state: &mut [u8], answer: &mut [u8]) -> u64
    ensures { record { code = result; state = state.new; answer = answer.new }
        ≡ Export.start_info state.old answer.old }
{
    host_buffers::starting(state, answer, |f| client_start::open_info(f))
}

pub fn fahireky_start_erase(state: &mut [u8], answer: &mut [u8]) -> u64
    ensures { record { code = result; state = state.new; answer = answer.new }
        ≡ Export.start_erase state.old answer.old }
{
    host_buffers::starting(state, answer, |f| client_start::open_erase(f))
}

pub fn fahireky_start_flash(state: &mut [u8], image: &[u8], answer: &mut [u8]) -> u64
    ensures { record { code = result; state = state.new; answer = answer.new }
        ≡ Export.start_flash state.old image.now answer.old }
{
    host_buffers::starting(state, answer, |f| client_start::open_flash(f, image))
}

pub fn fahireky_start_reset(
    state: &mut [u8],
    bootloader: bool,
    in_boot: bool,
    answer: &mut [u8],
) -> u64
    ensures { record { code = result; state = state.new; answer = answer.new }
        ≡ Export.start_reset state.old bootloader in_boot answer.old }
{
    host_buffers::starting(
        state,
        answer,
        |f| client_start::open_reset(f, bootloader, in_boot),
    )
}

pub fn fahireky_start_set_baud(
    state: &mut [u8],
    baud: u8,
    bootloader: bool,
    in_boot: bool,
    answer: &mut [u8],
) -> u64
    ensures { record { code = result; state = state.new; answer = answer.new }
        ≡ Export.start_set_baud state.old baud bootloader in_boot answer.old }
{
    host_buffers::starting(
        state,
        answer,
        |f| client_start::open_set_baud(f, baud, bootloader, in_boot),
    )
}

// Writes the next request to the front of the buffer. Kept in steps: it writes to a third lent buffer, and a closure's
// promise says nothing of what it changes there.
pub fn fahireky_request(state: &mut [u8], image: &[u8], buffer: &mut [u8], answer: &mut [u8]) -> u64
    ensures { record {
      code = result;
      state = state.new;
      buffer = buffer.new;
      answer = answer.new;
    } ≡ Export.request state.old image.now buffer.old
        answer.old }
{
    if let Some(short) = host_buffers::short_code(state.len(), answer.len()) {
        return short;
    }
    let f = host_state::load_front(state);
    let p = host_state::load_place(state);
    let o = client_request::ask(f, p, image, buffer);
    host_buffers::started(o, state, answer)
}

// Handles the record heard after the request.
pub fn fahireky_record(state: &mut [u8], image: &[u8], bytes: &[u8], answer: &mut [u8]) -> u64
    ensures { record { code = result; state = state.new; answer = answer.new }
        ≡ Export.record' state.old image.now bytes.now answer.old }
{
    host_buffers::telling(
        state,
        answer,
        |f, p, n| client_record::decide(f, p, n, image, bytes),
    )
}

pub fn fahireky_link_failed(state: &mut [u8], answer: &mut [u8]) -> u64
    ensures { record { code = result; state = state.new; answer = answer.new }
        ≡ Export.link_failed state.old answer.old }
{
    host_buffers::telling(state, answer, |f, _, _| client_record::fails(f))
}

// The attached id, if there is one. Kept in steps: it changes no state, and no other call has its frame.
pub fn fahireky_attached(state: &[u8], answer: &mut [u8]) -> u64
    ensures { record { code = result; bytes = answer.new }
        ≡ Export.attached state.now answer.old }
{
    if let Some(short) = host_buffers::short_code(state.len(), answer.len()) {
        return short;
    }
    let f = host_state::load_front(state);
    host_buffers::shows(Says::Over(Outcome::Attached(f.attached)), f.id, answer)
}

// What the record of a Select holds: nothing, one id, an unaddressed pod, or garble. Kept in steps, as it has no state.
pub fn fahireky_hear(bytes: &[u8], answer: &mut [u8]) -> u64
    ensures { record { code = result; bytes = answer.new }
        ≡ Export.hear bytes.now answer.old }
{
    if let Some(short) = host_buffers::short_code(host_state::size(), answer.len()) {
        return short;
    }
    let h = hearing::hear(bytes);
    host_buffers::shows(host_buffers::said_of(h.kind()), h.id(), answer)
}

// The place where the unread rest of a record begins, at most its length.
pub fn fahireky_rest(bytes: &[u8], place: usize) -> usize
    ensures { result ≡ Export.rest bytes.now place }
{
    if place < bytes.len() {
        place
    } else {
        bytes.len()
    }
}

pub fn fahireky_uid_hex(id: &[u8], text: &mut [u8]) -> u64
    ensures { record { code = result; bytes = text.new }
        ≡ Export.uid_hex id.now text.old }
{
    host_buffers::codes::written_code(text::uid_hex(id, text))
}

pub fn fahireky_parse_uid(text: &[u8], id: &mut [u8]) -> u64
    ensures { record { code = result; bytes = id.new }
        ≡ Export.parse_uid text.now id.old }
{
    host_buffers::codes::read_uid(text::parse_uid(text), id)
}

pub fn fahireky_image_compat(image: &[u8]) -> u64
    ensures { result ≡ Export.image_compat image.now }
{
    host_buffers::codes::key_code(image::image_compat(image))
}

pub fn fahireky_crc16(start: u16, bytes: &[u8]) -> u16
    ensures { result ≡ Export.crc16 start bytes.now }
{
    crc::crc16(start, bytes)
}
