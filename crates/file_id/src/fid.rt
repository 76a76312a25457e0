ghost use Rattle.std.specs.Prelude.{◌≡◌, ◌≤◌, ◌==◌, length, IfOk};
ghost use Rattle.std.specs.List.{prefix_len};
ghost use Rattle.file_id.specs.FileId.{Names, text_of, significant};
ghost use Rattle.file_id.specs.Reading.{fid_of, raised};

use crate::fault::FidFault;
use crate::fid_text::FidText;
use crate::reading;

/// Names a needle: the volume that holds it, its key there, and the cookie that a reader has to know.
#[derive(Clone, Copy, Debug, PartialEq, Eq)]
pub struct Fid {
    pub volume: u32,
    pub key: u64,
    pub cookie: u32,
}

fn leading_zeros(bytes: &[u8]) -> usize
    ensures { result ≡ prefix_len (λ byte. byte == 0) bytes.now }
{
    bytes.iter().take_while(|byte| **byte == 0).count()
}

/// The bytes from the first on that isn't zero, and the last one in any case.
fn key_bytes(bytes: &[u8; 8]) -> &[u8]
    ensures value { result.now ≡ significant bytes.now }
    ensures few { length result.now ≤ 8 }
{
    &bytes[leading_zeros(bytes).min(7)..]
}

impl Fid {
    /// Reads `<volume>,<key and cookie in hex>` with an optional `_<delta>`. Takes no memory.
    pub fn read(text: &[u8]) -> Result<Fid, FidFault>
        // An id is read exactly from the texts that name it.
        ensures found { IfOk result (Names text.now) }
        ensures only { (fid : Fid) → Names text.now fid → result ≡ Ok fid }

        // Which fault it is.
        ensures exact { result ≡ fid_of text.now }
    {
        reading::read(text)
    }

    /// The one text that names the id: lower-case digits, whole bytes, and no zero byte before the key's others.
    /// Takes no memory.
    #[tactic(auto, unfolding(crate::specs::FileId::text_of))]
    pub fn write(&self) -> FidText
        ensures text { result ≡ text_of self.now }
        ensures read_back { fid_of result ≡ Ok self.now }
    {
        let mut digits = itoa::Buffer::new();
        let mut text = FidText::empty();
        text.append(digits.format(self.volume).as_bytes());
        text.append(b",");
        text.append_hex(key_bytes(&self.key.to_be_bytes()));
        text.append_hex(&self.cookie.to_be_bytes());
        text
    }

    /// The id with the key that is greater by `delta`, or `KeyOverflow`. Takes no memory.
    pub fn plus(&self, delta: u64) -> Result<Fid, FidFault>
        ensures { result ≡ raised self.now delta }
    {
        let key = self.key.checked_add(delta).ok_or(FidFault::KeyOverflow)?;
        Ok(Fid { key, ..*self })
    }
}
