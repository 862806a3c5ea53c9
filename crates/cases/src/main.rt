// Requests through the desk's program: every refusal it can print, runs of every method, and both listings, each under its name.
// Rests on console.
#![tactic(auto)]

ghost use Rattle.std.specs.Prelude.{◌*◌, ◌≤◌, length};

// Answers the first `size` bytes of `words`, as standard input brings them, with a first argument. A text that cannot be written is let go: what is
// missing from the output shows it.
fn send_with(rt: &impl Print, argument: &[u8], name: &[u8], words: &[u64], size: usize)
    requires { (size ≤ 8 * length words.now) × (size ≤ 8208) }
{
    let mut bytes = [0u8; 8208];
    let (eights, _) = bytes.as_chunks_mut::<8>();
    for (eight, word) in eights.iter_mut().zip(words) {
        *eight = word.to_be_bytes();
    }
    let _ = rt.write_all(name);
    let _ = rt.write_all(b"\n");
    let mut text = [0u8; 67374];
    let length = console::desk_text(argument, &bytes[..size], &mut text);
    let _ = rt.write_all(&text[..length]);
}

// The same without an argument.
fn send(rt: &impl Print, name: &[u8], words: &[u64], size: usize)
    requires { (size ≤ 8 * length words.now) × (size ≤ 8208) }
{
    send_with(rt, b"", name, words, size);
}

fn refused_headers(rt: &impl Print) {
    send(rt, b"no bytes", &[0x1000010000000000], 0);
    send(rt, b"a broken header", &[0x1000010000000000], 7);
    send(rt, b"method 0", &[0x0000010000000000], 8);
    send(rt, b"method 15", &[0xF000010000000000], 8);
    send(rt, b"no yards", &[0x1000000000000000], 8);
    send(rt, b"33 yards", &[0x1000210000000000], 8);
    send(rt, b"129 lanes", &[0x1000010008100000], 8);
    send(rt, b"method 2 with a lane", &[0x2000010000100000, 0], 16);
    send(rt, b"source 2 of 2 yards", &[0x1000020000000002], 8);
    send(rt, b"129 lanes in method 3", &[0x3000010008100000], 8);
    send(
        rt,
        b"source 2 of 2 yards in method 3",
        &[0x3000020000000002],
        8,
    );
    send(rt, b"129 lanes in method 4", &[0x4000010008100000], 8);
    send(
        rt,
        b"source 1 of 2 yards in method 4",
        &[0x4000020000000001],
        8,
    );
    send(rt, b"method 6", &[0x6000010000000000, 0], 16);
    send(rt, b"129 lanes in method 5", &[0x5000010008100000], 8);
    send(
        rt,
        b"source 2 of 2 yards in method 5",
        &[0x5000020000000002],
        8,
    );
}

fn refused_counts(rt: &impl Print) {
    send(rt, b"a lane missing", &[0x1000020000100000], 8);
    send(rt, b"a lane too many", &[0x1000020000100000, 0, 0], 24);
    send(
        rt,
        b"a broken last lane",
        &[0x1000020000100000, 0x00010000FFFFFFFB],
        15,
    );
    send(
        rt,
        b"a broken word after the last lane",
        &[0x1000020000100000, 0x00010000FFFFFFFB, 0],
        17,
    );
    send(
        rt,
        b"a broken word after no lanes",
        &[0x1000010000000000, 0],
        9,
    );
    send(
        rt,
        b"a broken word, and the source",
        &[0x1000020000000002, 0],
        9,
    );
    send(rt, b"a table entry missing", &[0x2000010000000000], 8);
    let mut long = [0u64; 1026];
    long[0] = 0x2000200000000000;
    send(rt, b"longer than any request", &long, 8208);
    send(rt, b"32 yards in method 2, too long a log", &long, 8200);
    send(
        rt,
        b"32 yards in method 2, a broken last entry",
        &long,
        8199,
    );
    long[0] = 0x2000110000000000;
    send(rt, b"17 yards in method 2, too long a log", &long, 2320);
    long[0] = 0x1000030006700000;
    send(rt, b"3 yards and 103 lanes, too long a log", &long, 832);
    send(rt, b"a lane missing in method 3", &[0x3000020000100000], 8);
    long[0] = 0x3000030007500000;
    send(
        rt,
        b"3 yards and 117 lanes in method 3, too few cells",
        &long,
        944,
    );
    long[0] = 0x3000040006100000;
    send(
        rt,
        b"4 yards and 97 lanes in method 3, too few cells before too long a log",
        &long,
        784,
    );
    long[0] = 0x3000040006000000;
    send(
        rt,
        b"4 yards and 96 lanes in method 3, too long a log",
        &long,
        776,
    );
    long[0] = 0x3000040005E00000;
    send(
        rt,
        b"4 yards and 94 lanes in method 3, too long a log",
        &long,
        760,
    );
}

fn refused_lanes(rt: &impl Print) {
    send(
        rt,
        b"from a yard not there",
        &[0x1000020000100000, 0x0201000000000005],
        16,
    );
    send(
        rt,
        b"to a yard not there",
        &[0x1000020000100000, 0x0002000000000005],
        16,
    );
    send(
        rt,
        b"a spare bit",
        &[0x1000020000100000, 0x0001000100000005],
        16,
    );
    send(
        rt,
        b"from and to yards not there",
        &[0x1000020000200000, 0, 0x0202000000000005],
        24,
    );
    send(
        rt,
        b"a spare bit before the yards",
        &[0x1000020000100000, 0x0202000100000005],
        16,
    );
    send(
        rt,
        b"a yard not there before a price",
        &[0x1000020000100000, 0x0002000005F5E101],
        16,
    );
}

fn refused_prices(rt: &impl Print) {
    send(
        rt,
        b"a spare bit before a price",
        &[0x1000020000100000, 0x0001800000F00000],
        16,
    );
    send(
        rt,
        b"a price before a spare bit",
        &[0x1000020000200000, 0x0001000005F5E101, 0x0001000100000000],
        24,
    );
    send(
        rt,
        b"a price of 100,000,001",
        &[0x1000010000100000, 0x0000000005F5E101],
        16,
    );
    send(
        rt,
        b"a price of -100,000,001",
        &[0x1000010000100000, 0x00000000FA0A1EFF],
        16,
    );
}

fn refused_entries(rt: &impl Print) {
    send(
        rt,
        b"a spare bit in a table",
        &[0x2000010000000000, 0x0000000100000000],
        16,
    );
    send(
        rt,
        b"a spare bit before a price in a table",
        &[0x2000010000000000, 0x8000000000F00000],
        16,
    );
    send(
        rt,
        b"a price of -2 in a table",
        &[0x2000010000000000, 0x00000000FFFFFFFE],
        16,
    );
    send(
        rt,
        b"a price of 100,000,001 in a table",
        &[0x2000010000000000, 0x0000000005F5E101],
        16,
    );
}

fn refused_order(rt: &impl Print) {
    send(
        rt,
        b"a to-yard below the one before",
        &[0x3000020000200000, 0x0001000000000005, 0x0100000000000005],
        24,
    );
    send(
        rt,
        b"a to-yard below the one before, not below the first",
        &[
            0x3000030000300000,
            0x0000000000000005,
            0x0002000000000005,
            0x0001000000000005,
        ],
        32,
    );
    send(
        rt,
        b"two to-yards below the one before",
        &[
            0x3000030000300000,
            0x0002000000000005,
            0x0001000000000005,
            0x0000000000000005,
        ],
        32,
    );
    send(
        rt,
        b"a price before the order",
        &[0x3000020000200000, 0x0001000000000005, 0x0000000005F5E101],
        24,
    );
    send(
        rt,
        b"a from-yard not there before the order",
        &[0x3000020000200000, 0x0001000000000005, 0x0200000000000005],
        24,
    );
    send(
        rt,
        b"a spare bit before the order",
        &[0x3000020000200000, 0x0001000000000005, 0x0000000100000005],
        24,
    );
    send(
        rt,
        b"the order before a spare bit of the next lane",
        &[
            0x3000020000300000,
            0x0001000000000005,
            0x0000000000000005,
            0x0000000100000005,
        ],
        32,
    );
    send(
        rt,
        b"to a yard not there in method 3",
        &[0x3000020000200000, 0x0001000000000005, 0x0002000000000005],
        24,
    );
    send(
        rt,
        b"the same lanes in method 1, which has no order",
        &[0x1000020000200000, 0x0001000000000005, 0x0100000000000005],
        24,
    );
}

fn refused_destinations(rt: &impl Print) {
    send(
        rt,
        b"the destination missing",
        &[0x5000020000100000, 0x00010000FFFFFFFB],
        16,
    );
    send(
        rt,
        b"a word after the destination",
        &[0x5000020000100000, 0x00010000FFFFFFFB, 1, 0],
        32,
    );
    send(
        rt,
        b"destination 2 of 2 yards",
        &[0x5000020000100000, 0x00010000FFFFFFFB, 2],
        24,
    );
    send(
        rt,
        b"a destination of 2^32",
        &[0x5000020000100000, 0x00010000FFFFFFFB, 0x0000000100000000],
        24,
    );
    send(
        rt,
        b"a destination of 2^63",
        &[0x5000020000100000, 0x00010000FFFFFFFB, 0x8000000000000000],
        24,
    );
    send(
        rt,
        b"a destination of 2^64 - 1",
        &[0x5000020000100000, 0x00010000FFFFFFFB, 0xFFFFFFFFFFFFFFFF],
        24,
    );
    send(
        rt,
        b"a destination of 1 yard without lanes",
        &[0x5000010000000000, 1],
        16,
    );
    send(
        rt,
        b"a lane and the destination out of range",
        &[0x5000020000100000, 0x0002000000000000, 2],
        24,
    );
}

fn refused_in_method_4(rt: &impl Print) {
    send(rt, b"a lane missing in method 4", &[0x4000020000100000], 8);
    let mut lanes = [0u64; 23];
    lanes[0] = 0x4000200001600000;
    send(
        rt,
        b"32 yards and 22 lanes in method 4, too few cells before too long a log",
        &lanes,
        184,
    );
    send(
        rt,
        b"14 yards in method 4, too long a log",
        &[0x40000E0000000000],
        8,
    );
    send(
        rt,
        b"from a yard not there in method 4",
        &[0x4000020000100000, 0x0201000000000005],
        16,
    );
    send(
        rt,
        b"to a yard not there in method 4",
        &[0x4000020000100000, 0x0002000000000005],
        16,
    );
    send(
        rt,
        b"a spare bit in method 4",
        &[0x4000020000100000, 0x0001000100000005],
        16,
    );
    send(
        rt,
        b"a price of 100,000,001 in method 4",
        &[0x4000020000100000, 0x0001000005F5E101],
        16,
    );
}

fn runs_of_method_1(rt: &impl Print) {
    send(
        rt,
        b"the printed request",
        &[0x1000020000100000, 0x00010000FFFFFFFB],
        16,
    );
    send(rt, b"one yard, no lane", &[0x1000010000000000], 8);
    send(rt, b"one yard, a lane of 0", &[0x1000010000100000, 0], 16);
    send(
        rt,
        b"one yard, a lane of 100,000,000",
        &[0x1000010000100000, 0x0000000005F5E100],
        16,
    );
    send(
        rt,
        b"one yard, a loss circle",
        &[0x1000010000100000, 0x00000000FFFFFFFF],
        16,
    );
    send(
        rt,
        b"a tie keeps the first lane",
        &[0x1000020000200000, 0x0001000000000004, 0x0001000000000004],
        24,
    );
    send(
        rt,
        b"a loss circle that the source does not reach",
        &[0x1000030000200000, 0x01020000FFFFFFFF, 0x02010000FFFFFFFF],
        24,
    );
    send(
        rt,
        b"a loss circle that the source reaches",
        &[
            0x1000030000300000,
            0x01020000FFFFFFFF,
            0x02010000FFFFFFFF,
            0x0001000005F5E100,
        ],
        32,
    );
    send(
        rt,
        b"a rebate of 100,000,000, from source 1",
        &[0x1000020000100001, 0x01000000FA0A1F00],
        16,
    );
    let mut lanes = [0u64; 103];
    lanes[0] = 0x1000030006600000;
    lanes[1] = 0x0102000000000007;
    lanes[102] = 0x00010000FFFFFFFD;
    send(rt, b"3 yards and 102 lanes, the largest log", &lanes, 824);
}

fn runs_of_method_2(rt: &impl Print) {
    send(
        rt,
        b"one yard, no lane, method 2",
        &[0x2000010000000000, 0x00000000FFFFFFFF],
        16,
    );
    send(
        rt,
        b"two yards, no lane, method 2",
        &[
            0x2000020000000000,
            0x00000000FFFFFFFF,
            0x00000000FFFFFFFF,
            0x00000000FFFFFFFF,
            0x00000000FFFFFFFF,
        ],
        40,
    );
    send(
        rt,
        b"a tie keeps the first yard, method 2",
        &[0x2000030000000000, 0, 2, 4, 0, 0, 2, 0, 0, 0],
        80,
    );
    let mut table = [5u64; 257];
    table[0] = 0x200010000000000F;
    table[241] = 1;
    table[1] = 0x00000000FFFFFFFF;
    table[2] = 3;
    send(rt, b"16 yards in method 2, the largest log", &table, 2056);
}

fn runs_of_method_3(rt: &impl Print) {
    send(
        rt,
        b"the printed request in method 3",
        &[0x3000020000100000, 0x00010000FFFFFFFB],
        16,
    );
    send(rt, b"one yard, no lane, method 3", &[0x3000010000000000], 8);
    send(
        rt,
        b"one yard, a lane of 0, method 3",
        &[0x3000010000100000, 0],
        16,
    );
    send(
        rt,
        b"one yard, a loss circle, method 3",
        &[0x3000010000100000, 0x00000000FFFFFFFF],
        16,
    );
    send(
        rt,
        b"three yards, no lane, method 3",
        &[0x3000030000000001],
        8,
    );
    send(
        rt,
        b"a tie keeps the lowest lane, method 3",
        &[
            0x3000020000300000,
            0x0001000000000005,
            0x0001000000000004,
            0x0001000000000004,
        ],
        32,
    );
    send(
        rt,
        b"lanes offered in the same pass, method 3",
        &[
            0x3000030000300000,
            0x0001000000000001,
            0x0102000000000001,
            0x0002000000000002,
        ],
        32,
    );
    send(
        rt,
        b"the same lanes in method 1, other parents",
        &[
            0x1000030000300000,
            0x0001000000000001,
            0x0102000000000001,
            0x0002000000000002,
        ],
        32,
    );
    send(
        rt,
        b"a strict gain in a later pass, method 3",
        &[
            0x3000030000300000,
            0x0001000000000007,
            0x02010000FFFFFFFC,
            0x0002000000000009,
        ],
        32,
    );
    send(
        rt,
        b"a circle of price 0 and a lane to its own yard, method 3",
        &[
            0x3000030000400000,
            0x0000000000000000,
            0x01000000FFFFFFFD,
            0x0001000000000003,
            0x0101000000000000,
        ],
        40,
    );
    send(
        rt,
        b"a loss circle that the source does not reach, method 3",
        &[0x3000030000200000, 0x02010000FFFFFFFF, 0x01020000FFFFFFFF],
        24,
    );
    send(
        rt,
        b"a loss circle that the source reaches, method 3",
        &[
            0x3000030000300000,
            0x0001000005F5E100,
            0x02010000FFFFFFFF,
            0x01020000FFFFFFFF,
        ],
        32,
    );
    let mut lanes = [0u64; 129];
    lanes[0] = 0x3000030007400000;
    lanes[115] = 0x00010000FFFFFFFD;
    lanes[116] = 0x0102000000000007;
    send(
        rt,
        b"3 yards and 116 lanes in method 3, the largest bank",
        &lanes,
        936,
    );
    lanes[0] = 0x3000040005D00001;
    lanes[92] = 0x0102000000000004;
    lanes[93] = 0x0203000000000001;
    send(
        rt,
        b"4 yards and 93 lanes in method 3, the largest log",
        &lanes,
        752,
    );
    lanes[0] = 0x3000020008000000;
    lanes[92] = 0x0000000000000000;
    lanes[93] = 0x0000000000000000;
    lanes[115] = 0x0000000000000000;
    lanes[116] = 0x0000000000000000;
    lanes[128] = 0x0001000000000002;
    send(rt, b"2 yards and 128 lanes in method 3", &lanes, 1032);
}

fn runs_of_method_4(rt: &impl Print) {
    send(
        rt,
        b"the printed request in method 4",
        &[0x4000020000100000, 0x00010000FFFFFFFB],
        16,
    );
    send(rt, b"one yard, no lane, method 4", &[0x4000010000000000], 8);
    send(
        rt,
        b"over a yard between, method 4",
        &[
            0x4000030000300000,
            0x0001000000000005,
            0x01020000FFFFFFFE,
            0x0002000000000004,
        ],
        32,
    );
    send(
        rt,
        b"a loss circle that yard 0 does not reach, method 4",
        &[0x4000030000200000, 0x01020000FFFFFFFF, 0x02010000FFFFFFFF],
        24,
    );
    send(
        rt,
        b"13 yards and a lane in method 4",
        &[0x40000D0000100000, 0x0C000000FFFFFFFB],
        16,
    );
}

fn runs_of_method_5(rt: &impl Print) {
    send(
        rt,
        b"1 yard, no lanes, method 5",
        &[0x5000010000000000, 0],
        16,
    );
    send(
        rt,
        b"document 01's printed lane, to 1",
        &[0x5000020000100000, 0x00010000FFFFFFFB, 1],
        24,
    );
    send(
        rt,
        b"the source as destination",
        &[0x5000020000100000, 0x00010000FFFFFFFB, 0],
        24,
    );
    send(
        rt,
        b"an unreached destination",
        &[0x5000030000100000, 0x00010000FFFFFFFB, 2],
        24,
    );
    send(
        rt,
        b"two lanes 0 to 1 at 4, method 5",
        &[
            0x5000020000200000,
            0x0001000000000004,
            0x0001000000000004,
            1,
        ],
        32,
    );
    send(
        rt,
        b"over every yard, the lanes backward",
        &[
            0x5000040000300000,
            0x0203000000000001,
            0x01020000FFFFFFFE,
            0x0001000000000003,
            3,
        ],
        40,
    );
    send(
        rt,
        b"over one lane of three",
        &[
            0x5000040000300000,
            0x0203000000000001,
            0x01020000FFFFFFFE,
            0x0001000000000003,
            1,
        ],
        40,
    );
    send(
        rt,
        b"a circle of price 0 before the destination",
        &[
            0x5000030000300000,
            0x0001000000000002,
            0x01000000FFFFFFFE,
            0x0102000000000005,
            2,
        ],
        40,
    );
    send(
        rt,
        b"a loss circle that the source does not reach, method 5",
        &[
            0x5000030000200000,
            0x01020000FFFFFFFF,
            0x02010000FFFFFFFF,
            2,
        ],
        32,
    );
    send(
        rt,
        b"a loss circle that the source reaches, method 5",
        &[
            0x5000030000300000,
            0x0001000005F5E100,
            0x01020000FFFFFFFF,
            0x02010000FFFFFFFF,
            2,
        ],
        40,
    );
    let mut lanes = [0u64; 130];
    lanes[0] = 0x5000020008000000;
    lanes[128] = 0x0001000000000002;
    lanes[129] = 1;
    send(rt, b"2 yards and 128 lanes in method 5", &lanes, 1040);
    lanes[0] = 0x5000040003600001;
    lanes[53] = 0x0203000000000001;
    lanes[54] = 0x0102000000000004;
    lanes[55] = 3;
    send(
        rt,
        b"4 yards and 54 lanes in method 5, the largest log",
        &lanes,
        448,
    );
    lanes[0] = 0x5000040003700001;
    lanes[55] = 0x0000000000000000;
    lanes[56] = 3;
    send(rt, b"4 yards and 55 lanes in method 5", &lanes, 456);
}

// The printed case of an unreached yard: the printed request's lane among three yards. Then `all` in every other method, and with a refusal.
fn listings(rt: &impl Print) {
    send(
        rt,
        b"an unreached yard",
        &[0x1000030000100000, 0x00010000FFFFFFFB],
        16,
    );
    send_with(
        rt,
        b"all",
        b"an unreached yard, all",
        &[0x1000030000100000, 0x00010000FFFFFFFB],
        16,
    );
    send_with(
        rt,
        b"al",
        b"an unreached yard, an argument that counts as none",
        &[0x1000030000100000, 0x00010000FFFFFFFB],
        16,
    );
    send_with(
        rt,
        b"all",
        b"two yards, no lane, method 2, all",
        &[
            0x2000020000000001,
            0x00000000FFFFFFFF,
            0x00000000FFFFFFFF,
            0x00000000FFFFFFFF,
            0x00000000FFFFFFFF,
        ],
        40,
    );
    send_with(
        rt,
        b"all",
        b"three yards, no lane, method 3, all",
        &[0x3000030000000001],
        8,
    );
    send_with(
        rt,
        b"all",
        b"the printed request in method 4, all",
        &[0x4000020000100000, 0x00010000FFFFFFFB],
        16,
    );
    send_with(
        rt,
        b"all",
        b"an unreached destination, all",
        &[0x5000030000100000, 0x00010000FFFFFFFB, 2],
        24,
    );
    send_with(
        rt,
        b"all",
        b"one yard, a loss circle, all",
        &[0x1000010000100000, 0x00000000FFFFFFFF],
        16,
    );
}

fn main(rt: HostRuntime) {
    refused_headers(&rt);
    refused_counts(&rt);
    refused_lanes(&rt);
    refused_prices(&rt);
    refused_entries(&rt);
    refused_order(&rt);
    refused_destinations(&rt);
    refused_in_method_4(&rt);
    runs_of_method_1(&rt);
    runs_of_method_2(&rt);
    runs_of_method_3(&rt);
    runs_of_method_4(&rt);
    runs_of_method_5(&rt);
    listings(&rt);
}
