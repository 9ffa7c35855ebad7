// Integers in one to eight bytes, as RFC 9000 section 16 has them.
ghost use Rattle.std.specs.Prelude.{◌≡◌, ◌/◌, ◌^◌, ◌<◌, drop, length, slice_index, take};
ghost use Rattle.rad_base.specs.Varint.{NoVarintBeginsAnother, ReadsVarint, VarintReadsBack};
ghost use Rattle.rad_base.specs.Varint.{eight_in, four_in, shortest_or_long, two_in};
ghost use Rattle.rad_base.specs.Varint.{varint, varint_in};

/// What reading an integer answers that is spelled as RFC 9000 section 16 has it.
#[derive(Clone, Copy, Debug, PartialEq, Eq)]
pub enum Varint {
    /// A number below 2^62, and how many bytes spell it: 1, 2, 4 or 8.
    Value(u64, usize),
    /// The bytes end inside the spelling.
    Short,
    /// The spelling is whole, and not the number's shortest.
    Long,
}

// A number, where it is no less than the least one of its size.
fn if_shortest(number: u64, least: u64, size: usize) -> Varint
    ensures { result ≡ shortest_or_long number least size }
{
    if number < least {
        Varint::Long
    } else {
        Varint::Value(number, size)
    }
}

// A number of which the first byte says that it has two bytes.
fn read_two(bytes: &[u8]) -> Varint
    requires { slice_index bytes.now 0 / 64 ≡ 1 }
    ensures { result ≡ two_in bytes.now }
{
    let Some(front) = bytes.first_chunk::<2>() else {
        return Varint::Short;
    };
    let number = u16::from_be_bytes(*front) - (1 << 14);
    if_shortest(u64::from(number), 1 << 6, 2)
}

// A number of which the first byte says that it has four bytes.
fn read_four(bytes: &[u8]) -> Varint
    requires { slice_index bytes.now 0 / 64 ≡ 2 }
    ensures { result ≡ four_in bytes.now }
{
    let Some(front) = bytes.first_chunk::<4>() else {
        return Varint::Short;
    };
    let number = u32::from_be_bytes(*front) - (1 << 31);
    if_shortest(u64::from(number), 1 << 14, 4)
}

// A number of which the first byte says that it has eight bytes.
fn read_eight(bytes: &[u8]) -> Varint
    requires { slice_index bytes.now 0 / 64 ≡ 3 }
    ensures { result ≡ eight_in bytes.now }
{
    let Some(front) = bytes.first_chunk::<8>() else {
        return Varint::Short;
    };
    let number = u64::from_be_bytes(*front) - (3 << 62);
    if_shortest(number, 1 << 30, 8)
}

// The number at the front, by the size that the first byte says.
fn front_number(bytes: &[u8]) -> Varint
    ensures { result ≡ varint_in bytes.now }
{
    let Some(first) = bytes.first() else {
        return Varint::Short;
    };
    match *first {
        0..64 => Varint::Value(u64::from(*first), 1),
        64..128 => read_two(bytes),
        128..192 => read_four(bytes),
        192..=255 => read_eight(bytes),
    }
}

/// The number at the front of the bytes, in the encoding of RFC 9000 section 16, the shortest
/// spelling alone. The two highest bits of the first byte say how many bytes it has.
pub fn read_varint(bytes: &[u8]) -> Varint
    ensures reads { ReadsVarint bytes.now result }
    ensures exact { result ≡ varint_in bytes.now }
{
    front_number(bytes)
}

/// Writes the shortest spelling of `n`, which is below 2^62, to the front, and answers how many
/// bytes it has: 1, 2, 4 or 8. The bytes behind it stay as they were.
pub fn write_varint(n: u64, out: &mut [u8; 8]) -> usize
    requires { n < 2 ^ 62 }
    ensures size { result ≡ length (varint n) }
    ensures written { take result out.new ≡ varint n }
    ensures behind { drop result out.new ≡ drop result out.old }
{
    if n < 1 << 6 {
        out[0] = n as u8;
        1
    } else if n < 1 << 14 {
        out[..2].copy_from_slice(&(n as u16 + (1 << 14)).to_be_bytes());
        2
    } else if n < 1 << 30 {
        out[..4].copy_from_slice(&(n as u32 + (1 << 31)).to_be_bytes());
        4
    } else {
        *out = (n + (3 << 62)).to_be_bytes();
        8
    }
}

/// No spelling begins another.
pub fn no_varint_begins_another()
    ensures { NoVarintBeginsAnother }
{}

/// Reading what was written gives the number, whatever bytes follow.
pub fn varint_reads_back()
    ensures { VarintReadsBack }
{}

#[cfg(test)]
mod tests {
    use super::*;
    use std::test::Fail;

    // Bytes that an independent program made, and what they are read as.
    const READ: [(&[u8], Varint); 79] = [
        (b"\x40\x40", Varint::Value(64, 2)),
        (b"\x80\x00\x40\x00", Varint::Value(16384, 4)),
        (
            b"\xc0\x00\x00\x00\x40\x00\x00\x00",
            Varint::Value(1073741824, 8),
        ),
        (b"\x25", Varint::Value(37, 1)),
        (b"\x7b\xbd", Varint::Value(15293, 2)),
        (b"\x9d\x7f\x3e\x7d", Varint::Value(494878333, 4)),
        (
            b"\xc2\x19\x7c\x5e\xff\x14\xe8\x8c",
            Varint::Value(151288809941952652, 8),
        ),
        (b"\x40\x25", Varint::Long),
        (b"\x40", Varint::Short),
        (b"", Varint::Short),
        (b"\x48\xa8\x99\x65", Varint::Value(2216, 2)),
        (b"\x4e\x2e\xa9", Varint::Value(3630, 2)),
        (b"\x80\x11\x5d\xf4", Varint::Value(1138164, 4)),
        (b"\x01\x4b\x06", Varint::Value(1, 1)),
        (b"\x24", Varint::Value(36, 1)),
        (
            b"\x80\x00\x58\xa1\xcf\xc4\x00\x58\xa1\xcf\xc4",
            Varint::Value(22689, 4),
        ),
        (
            b"\xc0\x00\x00\x2b\xc3\xab\x9d\x5f\x3f\x35",
            Varint::Value(187966397791, 8),
        ),
        (
            b"\xc0\x30\x8b\x00\x2d\x59\xc4\x05",
            Varint::Value(13663631759229957, 8),
        ),
        (b"\xc0\x00\x04\x7c", Varint::Short),
        (b"\x1b", Varint::Value(27, 1)),
        (b"\x41\x1b", Varint::Value(283, 2)),
        (
            b"\xc0\x00\x00\x03\xce\x6c\x3f\xc0\x36\x0d",
            Varint::Value(16348102592, 8),
        ),
        (
            b"\xcf\xca\x7e\xff\x08\xce\xfb\xa0",
            Varint::Value(1137861489694014368, 8),
        ),
        (
            b"\xd8\x09\x80\x00\xa3\xc9\x73\x2a\xf5\x79\x33\x32\x4a\x7b\xc6\xba\xe3\xce\xd5\x09\x36\x5f\xec\xb1\x85\x9b\x6b",
            Varint::Value(1732056271936910122, 8),
        ),
        (
            b"\xc0\x00\x10\xe0\x8c\x57\x66\xf7\x12\x1d",
            Varint::Value(18556613256951, 8),
        ),
        (
            b"\xc1\xf4\xca\x3a\xed\x70\x88\x78\x48",
            Varint::Value(140959842795817080, 8),
        ),
        (
            b"\xc0\x14\x16\x89\x48\xa9\x63\x01\x64\x89\x11\xb8",
            Varint::Value(5654278419604225, 8),
        ),
        (b"\x40\x62\xa4\x18", Varint::Value(98, 2)),
        (
            b"\xc0\x00\x00\x09\xf0\xdd\x95\x49\x22\x5b",
            Varint::Value(42695759177, 8),
        ),
        (
            b"\xc0\x00\x00\x11\xb1\x75\xfa\x92\xd3",
            Varint::Value(75991743122, 8),
        ),
        (
            b"\xd6\x70\x42\xd3\xa6\xed\xce\x1b",
            Varint::Value(1616865743032143387, 8),
        ),
        (b"\xc0\x00\x00\x5d\xdf\x05\x54", Varint::Short),
        (b"\x9d\x09\x0c\x85\x47\x5f", Varint::Value(487132293, 4)),
        (
            b"\xc0\x00\x87\x5a\x90\x3e\x40\x8d\x82\xe3",
            Varint::Value(148823036805261, 8),
        ),
        (
            b"\xc0\x00\x00\x2d\x2d\x1b\x09\x78\x70\xd5\x3d\x3c",
            Varint::Value(194030274936, 8),
        ),
        (b"\xa8\x8c\xac\x3c\x18\xad", Varint::Value(680307772, 4)),
        (
            b"\xc0\x45\x86\xda\x67\xff\xd6\x0f\xf8\x44",
            Varint::Value(19570045998847503, 8),
        ),
        (
            b"\xc0\x00\x00\x00\x4e\x4b\x82\x91",
            Varint::Value(1313571473, 8),
        ),
        (b"\x67\x5a\x4f\xe5", Varint::Value(10074, 2)),
        (b"\x80\x01\x0b\xaf", Varint::Value(68527, 4)),
        (b"\x8f\x09\x9d\x88", Varint::Value(252288392, 4)),
        (
            b"\x80\x0a\xfb\xdd\x53\xfb\xdd\x53",
            Varint::Value(719837, 4),
        ),
        (
            b"\xc0\x00\x13\x00\xae\x0a\x09\x3c",
            Varint::Value(20893640821052, 8),
        ),
        (b"\x66\x92\x65\xb3", Varint::Value(9874, 2)),
        (b"\x40\x08", Varint::Long),
        (
            b"\x85\x00\xbd\x5c\xf4\x95\x2f\xa3",
            Varint::Value(83934556, 4),
        ),
        (
            b"\x80\x0d\xf3\x09\x54\x80\x0d\xf3\x09\x54",
            Varint::Value(914185, 4),
        ),
        (b"\x1f\x9d\x69\x0b\x95\x33\xc5", Varint::Value(31, 1)),
        (
            b"\xc0\x69\x2a\x83\x37\xc7\x0a\x1b",
            Varint::Value(29601615619492379, 8),
        ),
        (b"\x03", Varint::Value(3, 1)),
        (b"\x15\x58\x01\x36\x21", Varint::Value(21, 1)),
        (
            b"\x43\xf0\x45\x68\x65\x5c\x00\xd1\x1e\x75\x1e\x43\x8e\x4a\xd0\xca\x51\xf3\x0e\x0b\xb6\x6e\xef\x78",
            Varint::Value(1008, 2),
        ),
        (b"\x8b", Varint::Short),
        (
            b"\xc0\x00\x00\xb8\x2a\xbb\xd4\x1c",
            Varint::Value(790990935068, 8),
        ),
        (
            b"\xd7\x44\x57\x9e\x37\x9d\xa9\xad\xee\x8e\x7c\x7b",
            Varint::Value(1676561298338195885, 8),
        ),
        (
            b"\xc0\x29\xa8\x3d\xae\x71\x64\x04\x7c",
            Varint::Value(11725456918275076, 8),
        ),
        (b"\x40\x78\x16", Varint::Value(120, 2)),
        (
            b"\xc0\x00\x00\x21\x72\x27\xad\x44\x59\x48\x44\x59\x48",
            Varint::Value(143649123652, 8),
        ),
        (
            b"\xc0\x00\x00\x02\x51\xad\x39\x11\x32",
            Varint::Value(9960241425, 8),
        ),
        (
            b"\xc0\x00\x0c\x9c\x97\xa2\x85\xa4\x82\x2e",
            Varint::Value(13866698442148, 8),
        ),
        (b"\x1f", Varint::Value(31, 1)),
        (b"\x80\x07\xbd\x12\xdf\x37", Varint::Value(507154, 4)),
        (
            b"\xc0\x02\xdc\x46\x7c\x75\x39\xc6\xba\x30",
            Varint::Value(805145247300038, 8),
        ),
        (b"\x80\x56\x06\xfd\x54", Varint::Value(5637885, 4)),
        (
            b"\xc0\x00\x06\xba\xf1\xe8\xed\xbd",
            Varint::Value(7399992257981, 8),
        ),
        (
            b"\x41\xf1\xb5\x98\x87\x43\x7d\xdb\xcd\xcb\xf2\xbc\xc5\x22\x4c\xad\xef\x56\x62\xb6\x55\xa1\xf1\x5d\x6e\x8e\xad\x2b\x19\x65\x9e\x06\x8c\xbb",
            Varint::Value(497, 2),
        ),
        (b"\xc1\x5d\x73\x84\xc6\xfc\xd1", Varint::Short),
        (b"\x90\x12\x02\x94\x12\x02\x94", Varint::Value(269615764, 4)),
        (
            b"\xc0\x05\x91\xae\xa2\x93\x87\x45\xd2\xb0\xad\x29\xbd\x5b\xe0\x5a\x51\x72\xbc\xbb\xef\x08\xa5\x3c\xae\x58\x29\x38\xa9\x9b\x03\xc0\xb0",
            Varint::Value(1567554121467717, 8),
        ),
        (b"\x5f\xe5", Varint::Value(8165, 2)),
        (b"\xc0\x00\x00\x7a\x0e", Varint::Short),
        (
            b"\x41\xc9\x55\x67\x28\x11\x9f\xc4\x9f\xb9\xb8\x2f\x71\xe0\xf9\x16\x29\xe8\x10\xf6\xd8\x0f\x32\x79\x98\x0a\xe9\xe3\x66\xa7\x76\xfa\x09\x21\x53\x49\xc9\xa3\x98",
            Varint::Value(457, 2),
        ),
        (b"\x42\xc9", Varint::Value(713, 2)),
        (
            b"\xc0\x00\xe5\xf7\x4a\xd8\x73\x8d",
            Varint::Value(252850275382157, 8),
        ),
        (
            b"\x0e\x2c\xd5\x3f\x4e\x4e\x34\x0e\x5f\xa2",
            Varint::Value(14, 1),
        ),
        (
            b"\xc0\x00\x00\x58\x8f\x63\x41\xc9\x47\x7a",
            Varint::Value(380362768841, 8),
        ),
        (
            b"\xce\x7b\x6c\x7b\xbe\x1a\x5b\x35\x65\x3a",
            Varint::Value(1043547017392577333, 8),
        ),
        (b"\x58\x64\x21\x41\x6d", Varint::Value(6244, 2)),
        (
            b"\xc0\x01\x8f\xd5\x71\xb9\x2d\xbe\xda\x24",
            Varint::Value(439621875477950, 8),
        ),
    ];

    #[test]
    fn numbers_are_read(rt: HostRuntime) -> Result<(), Fail> {
        for (bytes, answer) in READ {
            assert_eq!(rt; read_varint(bytes), answer);
        }
        Ok(())
    }

    #[test]
    fn numbers_are_written_as_read(rt: HostRuntime) -> Result<(), Fail> {
        for (bytes, answer) in READ {
            if let Varint::Value(n, size) = answer
                && n < 1 << 62
            {
                let mut out = [0; 8];
                assert_eq!(rt; write_varint(n, &mut out), size);
                assert_eq!(rt; out.get(..size), bytes.get(..size));
            }
        }
        Ok(())
    }
}
