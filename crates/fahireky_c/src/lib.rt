// Every call of the client over numbers and byte slices, for a host to link: each is the call of that name in the crate
// `fahireky`, with the same contract.
#![tactic(auto)]

ghost use Rattle.std.specs.Prelude.{◌≡◌};
ghost use Rattle.host_buffers.specs.Exports as Export;

#[unsafe(no_mangle)]
pub extern "C" fn fahireky_state_size() -> usize
    ensures { result ≡ Export.state_size }
{
    fahireky::fahireky_state_size()
}

#[unsafe(no_mangle)]
pub extern "C" fn fahireky_answer_size() -> usize
    ensures { result ≡ Export.answer_size }
{
    fahireky::fahireky_answer_size()
}

#[unsafe(no_mangle)]
pub extern "C" fn fahireky_start_select(
    state: &mut [u8],
    prefix: &[u8],
    bits: usize,
    answer: &mut [u8],
) -> u64
    ensures { record { code = result; state = state.new; answer = answer.new }
        ≡ Export.start_select state.old prefix.now bits answer.old }
{
    fahireky::fahireky_start_select(state, prefix, bits, answer)
}

#[unsafe(no_mangle)]
pub extern "C" fn fahireky_start_deselect(state: &mut [u8], answer: &mut [u8]) -> u64
    ensures { record { code = result; state = state.new; answer = answer.new }
        ≡ Export.start_deselect state.old answer.old }
{
    fahireky::fahireky_start_deselect(state, answer)
}

#[unsafe(no_mangle)]
pub extern "C" fn fahireky_start_attach(state: &mut [u8], answer: &mut [u8]) -> u64
    ensures { record { code = result; state = state.new; answer = answer.new }
        ≡ Export.start_attach state.old answer.old }
{
    fahireky::fahireky_start_attach(state, answer)
}

#[unsafe(no_mangle)]
pub extern "C" fn fahireky_start_attach_to(
    state: &mut [u8],
    prefix: &[u8],
    answer: &mut [u8],
) -> u64
    ensures { record { code = result; state = state.new; answer = answer.new }
        ≡ Export.start_attach_to state.old prefix.now answer.old }
{
    fahireky::fahireky_start_attach_to(state, prefix, answer)
}

#[unsafe(no_mangle)]
pub extern "C" fn fahireky_start_discover(state: &mut [u8], prefix: &[u8], answer: &mut [u8]) -> u64
    ensures { record { code = result; state = state.new; answer = answer.new }
        ≡ Export.start_discover state.old prefix.now answer.old }
{
    fahireky::fahireky_start_discover(state, prefix, answer)
}

#[unsafe(no_mangle)]
pub extern "C" fn fahireky_start_info(state: &mut [u8], answer: &mut [u8]) -> u64
    ensures { record { code = result; state = state.new; answer = answer.new }
        ≡ Export.start_info state.old answer.old }
{
    fahireky::fahireky_start_info(state, answer)
}

#[unsafe(no_mangle)]
pub extern "C" fn fahireky_start_erase(state: &mut [u8], answer: &mut [u8]) -> u64
    ensures { record { code = result; state = state.new; answer = answer.new }
        ≡ Export.start_erase state.old answer.old }
{
    fahireky::fahireky_start_erase(state, answer)
}

#[unsafe(no_mangle)]
pub extern "C" fn fahireky_start_flash(state: &mut [u8], image: &[u8], answer: &mut [u8]) -> u64
    ensures { record { code = result; state = state.new; answer = answer.new }
        ≡ Export.start_flash state.old image.now answer.old }
{
    fahireky::fahireky_start_flash(state, image, answer)
}

#[unsafe(no_mangle)]
pub extern "C" fn fahireky_start_reset(
    state: &mut [u8],
    bootloader: bool,
    in_boot: bool,
    answer: &mut [u8],
) -> u64
    ensures { record { code = result; state = state.new; answer = answer.new }
        ≡ Export.start_reset state.old bootloader in_boot answer.old }
{
    fahireky::fahireky_start_reset(state, bootloader, in_boot, answer)
}

#[unsafe(no_mangle)]
pub extern "C" fn fahireky_start_set_baud(
    state: &mut [u8],
    baud: u8,
    bootloader: bool,
    in_boot: bool,
    answer: &mut [u8],
) -> u64
    ensures { record { code = result; state = state.new; answer = answer.new }
        ≡ Export.start_set_baud state.old baud bootloader in_boot answer.old }
{
    fahireky::fahireky_start_set_baud(state, baud, bootloader, in_boot, answer)
}

// Writes the next request to the front of the buffer.
#[unsafe(no_mangle)]
pub extern "C" fn fahireky_request(
    state: &mut [u8],
    image: &[u8],
    buffer: &mut [u8],
    answer: &mut [u8],
) -> u64
    ensures { record {
      code = result;
      state = state.new;
      buffer = buffer.new;
      answer = answer.new;
    } ≡ Export.request state.old image.now buffer.old
        answer.old }
{
    fahireky::fahireky_request(state, image, buffer, answer)
}

// Handles the record heard after the request.
#[unsafe(no_mangle)]
pub extern "C" fn fahireky_record(
    state: &mut [u8],
    image: &[u8],
    bytes: &[u8],
    answer: &mut [u8],
) -> u64
    ensures { record { code = result; state = state.new; answer = answer.new }
        ≡ Export.record' state.old image.now bytes.now answer.old }
{
    fahireky::fahireky_record(state, image, bytes, answer)
}

#[unsafe(no_mangle)]
pub extern "C" fn fahireky_link_failed(state: &mut [u8], answer: &mut [u8]) -> u64
    ensures { record { code = result; state = state.new; answer = answer.new }
        ≡ Export.link_failed state.old answer.old }
{
    fahireky::fahireky_link_failed(state, answer)
}

// The attached id, if there is one.
#[unsafe(no_mangle)]
pub extern "C" fn fahireky_attached(state: &[u8], answer: &mut [u8]) -> u64
    ensures { record { code = result; bytes = answer.new }
        ≡ Export.attached state.now answer.old }
{
    fahireky::fahireky_attached(state, answer)
}

// What the record of a Select holds: nothing, one id, an unaddressed pod, or garble.
#[unsafe(no_mangle)]
pub extern "C" fn fahireky_hear(bytes: &[u8], answer: &mut [u8]) -> u64
    ensures { record { code = result; bytes = answer.new }
        ≡ Export.hear bytes.now answer.old }
{
    fahireky::fahireky_hear(bytes, answer)
}

// The place where the unread rest of a record begins, at most its length.
#[unsafe(no_mangle)]
pub extern "C" fn fahireky_rest(bytes: &[u8], place: usize) -> usize
    ensures { result ≡ Export.rest bytes.now place }
{
    fahireky::fahireky_rest(bytes, place)
}

#[unsafe(no_mangle)]
pub extern "C" fn fahireky_uid_hex(id: &[u8], text: &mut [u8]) -> u64
    ensures { record { code = result; bytes = text.new }
        ≡ Export.uid_hex id.now text.old }
{
    fahireky::fahireky_uid_hex(id, text)
}

#[unsafe(no_mangle)]
pub extern "C" fn fahireky_parse_uid(text: &[u8], id: &mut [u8]) -> u64
    ensures { record { code = result; bytes = id.new }
        ≡ Export.parse_uid text.now id.old }
{
    fahireky::fahireky_parse_uid(text, id)
}

#[unsafe(no_mangle)]
pub extern "C" fn fahireky_image_compat(image: &[u8]) -> u64
    ensures { result ≡ Export.image_compat image.now }
{
    fahireky::fahireky_image_compat(image)
}

#[unsafe(no_mangle)]
pub extern "C" fn fahireky_crc16(start: u16, bytes: &[u8]) -> u16
    ensures { result ≡ Export.crc16 start bytes.now }
{
    fahireky::fahireky_crc16(start, bytes)
}
