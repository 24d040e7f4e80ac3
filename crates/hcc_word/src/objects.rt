//! The word of an object: where it lies, in the lower 48 bits, and its kind above these.

ghost use Rattle.std.specs.Prelude.{◌≡◌, ◌/◌, ◌%◌, ◌+◌, ◌*◌, ◌^◌, ◌<◌};
ghost use Rattle.hcc_word.specs.declared.objects.TheConstants.{ADDRESS_BITS};

/// How many bits an object's address has. Systems that tag pointers above these can't have their
/// pointers here.
pub const ADDRESS_BITS: u32 = 48;

/// The word of an object that lies at this address and is of this kind.
pub fn packed_object(address: u64, kind: u16) -> u64
    requires { address < 2 ^ ADDRESS_BITS }
    ensures word { result ≡ kind * 2 ^ ADDRESS_BITS + address }
    ensures address { result % 2 ^ ADDRESS_BITS ≡ address }
    ensures kind { result / 2 ^ ADDRESS_BITS ≡ kind }
{
    (kind as u64) << ADDRESS_BITS | address
}

/// Where the object of a word lies.
pub fn object_address(word: u64) -> u64
    ensures exact { result ≡ word % 2 ^ ADDRESS_BITS }
    ensures within { result < 2 ^ ADDRESS_BITS }
{
    word & ((1 << ADDRESS_BITS) - 1)
}

/// Of which kind the object of a word is.
pub fn object_kind(word: u64) -> u16
    ensures { result ≡ word / 2 ^ ADDRESS_BITS }
{
    (word >> ADDRESS_BITS) as u16
}
