// The device information and the rules on images: key, chunk, padding, size, erase addresses.
#![tactic(auto)]

pub mod info_bytes;
pub mod writes;

ghost use Rattle.std.specs.Prelude.{◌≡◌, ◌+◌, ◌≤◌, length};
ghost use Rattle.paper.specs.Answers.{sound, informed, spans_too_far, too_large, reported, key, incompatible, chunk};
ghost use Rattle.paper.specs.Answers.{padding};
ghost use Rattle.image.specs.Images.{shown_info, paper_info, shown_key, erase_after};

// The device information, as in the reply to an Info request.
#[derive(Clone, Copy)]
pub struct Info {
    pub capacity: u32,
    pub erase_size: u16,
    pub boot_version: u16,
    pub app_version: u16,
    pub mode: u8,
    pub boot_baud: u8,
    pub compat: u32,
    pub max_payload: u16,
}

// A payload that is no device information. Refusal 5.
#[derive(Clone, Copy, Debug, PartialEq, Eq)]
pub struct BadInfo;

// The compatibility key of a device that fits every image.
const UNSET: u32 = 0xFFFF_FFFF;

// The device information in the payload of an Info reply. BadInfo if the payload is short or breaks the Info rule.
#[tactic(auto, unfolding(paper::specs::Answers::informed, paper::specs::Frame::info_of, crate::specs::InfoBytes::loaded_info))]
pub fn device_info(payload: &[u8]) -> Result<Info, BadInfo>
    ensures { result ≡ shown_info (informed payload.now) }
{
    if payload.len() < 18 {
        return Err(BadInfo);
    }
    let info = info_bytes::load(payload, 0);
    if info.sound() { Ok(info) } else { Err(BadInfo) }
}

// The compatibility key of an image, if it has one: the four bytes that begin six before its end.
#[tactic(auto, unfolding(paper::specs::Answers::key))]
pub fn image_compat(image: &[u8]) -> Option<u32>
    ensures { result ≡ shown_key (key image.now) }
{
    let at = image.len().checked_sub(6)?;
    if image.len() % 4 == 2 {
        Some(wire::get(image, at))
    } else {
        None
    }
}

// An image's length as reported in 32 bits: 2^32 - 1 if it is longer.
#[tactic(auto, unfolding(paper::specs::Answers::reported))]
pub fn reported(n: usize) -> u32
    ensures { result ≡ reported n }
{
    u32::try_from(n).unwrap_or(u32::MAX)
}

// How many bytes FF pad a length to a multiple of 4.
#[tactic(auto, unfolding(paper::specs::Answers::padding))]
pub fn padding(n: usize) -> usize
    ensures { result ≡ padding n }
{
    (4 - n % 4) % 4
}

impl Info {
    // The Info rule: erase_size and capacity are not 0, and max_payload is at least 4.
    #[tactic(auto, unfolding(paper::specs::Answers::sound))]
    pub fn sound(self) -> bool
        ensures { result ≡ sound (paper_info self) }
    {
        self.erase_size != 0 && self.capacity != 0 && 4 <= self.max_payload
    }

    // Whether the capacity rounded up to the erase size is above 2^32 - 1.
    #[tactic(auto, unfolding(paper::specs::Answers::spans_too_far, paper::specs::Answers::steps))]
    pub fn spans_too_far(self) -> bool
        ensures { result ≡ spans_too_far (paper_info self) }
    {
        let e = u32::from(self.erase_size);
        e != 0 && self.capacity.checked_next_multiple_of(e).is_none()
    }

    // Whether an image of n bytes exceeds the capacity.
    #[tactic(auto, unfolding(paper::specs::Answers::too_large))]
    pub fn too_large(self, n: usize) -> bool
        ensures { result ≡ too_large (paper_info self) n }
    {
        (self.capacity as usize) < n
    }

    // Whether the device's key is set, and the image's key is missing or different.
    #[tactic(auto, unfolding(paper::specs::Answers::incompatible))]
    pub fn incompatible(self, image: &[u8]) -> bool
        ensures { result ≡ incompatible (paper_info self) image.now }
    {
        self.compat != UNSET && image_compat(image) != Some(self.compat)
    }

    // The most bytes that one Write carries.
    #[tactic(auto, unfolding(paper::specs::Answers::chunk))]
    pub fn chunk(self) -> usize
        ensures { result ≡ chunk self.max_payload }
    {
        usize::from(self.max_payload).min(wire::MAX_PAYLOAD) / 4 * 4
    }

    // The address after this one in 0, e, 2e .. below the capacity, where e is the erase size. None after the last.
    #[tactic(auto, using(crate::proofs::Ways::some_next, crate::proofs::Ways::none_past, crate::proofs::Ways::none_still))]
    pub fn erase_after(self, address: u32) -> Option<u32>
        ensures { result ≡ erase_after (paper_info self) address }
    {
        let next = address.checked_add(u32::from(self.erase_size))?;
        if address < next && next < self.capacity {
            Some(next)
        } else {
            None
        }
    }
}
