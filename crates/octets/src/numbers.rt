// Numbers in bytes, lowest byte first: "Numbers are little endian" (document 01, "Log table, a lent buffer").
ghost use Rattle.std.specs.Prelude.{◌≡◌, ◌+◌, ◌≤◌, length};
ghost use Rattle.octets.specs.Numbers.{le16, le32, bytes2 as Numbers·bytes2, bytes4 as Numbers·bytes4};

// The two bytes of `s` from `at` on as a number.
pub fn get16(s: &[u8], at: usize) -> u16
    requires { at + 2 ≤ length s.now }
    ensures { result ≡ le16 s.now at }
{
    u16::from_le_bytes([s[at], s[at + 1]])
}

// The four bytes of `s` from `at` on as a number.
pub fn get32(s: &[u8], at: usize) -> u32
    requires { at + 4 ≤ length s.now }
    ensures { result ≡ le32 s.now at }
{
    u32::from_le_bytes([s[at], s[at + 1], s[at + 2], s[at + 3]])
}

// `n` as two bytes.
pub fn bytes2(n: u16) -> [u8; 2]
    ensures { result ≡ Numbers·bytes2 n }
{
    n.to_le_bytes()
}

// `n` as four bytes.
pub fn bytes4(n: u32) -> [u8; 4]
    ensures { result ≡ Numbers·bytes4 n }
{
    n.to_le_bytes()
}
