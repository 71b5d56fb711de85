// Sets of the heap's nodes as masks, answered from constant tables.
//
// Bit j of a word stands for node j, and each table has a word for each bucket.

ghost use Rattle.std.specs.Prelude.{◌≡◌, ◌≤◌, ◌<◌, ◌+◌, ◌^◌, ℕ, not, nat_eq, leb, bit_and, length};
ghost use Rattle.i_tree.specs.Seg.Buckets.{between, overlap};
ghost use Rattle.i_tree.specs.Seg.Nodes.{covered, parent_passes, nodes_where, canonical_nodes, meeting_set, nodes_of, interval_of, IsLowest};

// Word i has the nodes whose first bucket is at most i.
static BEGIN: [u64; 32] = [
    0x0000_0000_8000_808b, // 0
    0x0000_0001_8000_808b, // 1
    0x0000_0003_8001_808b, // 2
    0x0000_0007_8001_808b, // 3
    0x0000_000f_8003_818b, // 4
    0x0000_001f_8003_818b, // 5
    0x0000_003f_8007_818b, // 6
    0x0000_007f_8007_818b, // 7
    0x0000_00ff_800f_839b, // 8
    0x0000_01ff_800f_839b, // 9
    0x0000_03ff_801f_839b, // 10
    0x0000_07ff_801f_839b, // 11
    0x0000_0fff_803f_879b, // 12
    0x0000_1fff_803f_879b, // 13
    0x0000_3fff_807f_879b, // 14
    0x0000_7fff_807f_879b, // 15
    0x0000_ffff_80ff_8fbf, // 16
    0x0001_ffff_80ff_8fbf, // 17
    0x0003_ffff_81ff_8fbf, // 18
    0x0007_ffff_81ff_8fbf, // 19
    0x000f_ffff_83ff_9fbf, // 20
    0x001f_ffff_83ff_9fbf, // 21
    0x003f_ffff_87ff_9fbf, // 22
    0x007f_ffff_87ff_9fbf, // 23
    0x00ff_ffff_8fff_bfff, // 24
    0x01ff_ffff_8fff_bfff, // 25
    0x03ff_ffff_9fff_bfff, // 26
    0x07ff_ffff_9fff_bfff, // 27
    0x0fff_ffff_bfff_ffff, // 28
    0x1fff_ffff_bfff_ffff, // 29
    0x3fff_ffff_ffff_ffff, // 30
    0x7fff_ffff_ffff_ffff, // 31
];

// Word i has the nodes whose last bucket is at least i.
static REACH: [u64; 32] = [
    0x7fff_ffff_ffff_ffff, // 0
    0x7fff_ffff_7fff_ffff, // 1
    0x7fff_fffe_7fff_7fff, // 2
    0x7fff_fffc_7fff_7fff, // 3
    0x7fff_fff8_7ffe_7f7f, // 4
    0x7fff_fff0_7ffe_7f7f, // 5
    0x7fff_ffe0_7ffc_7f7f, // 6
    0x7fff_ffc0_7ffc_7f7f, // 7
    0x7fff_ff80_7ff8_7e77, // 8
    0x7fff_ff00_7ff8_7e77, // 9
    0x7fff_fe00_7ff0_7e77, // 10
    0x7fff_fc00_7ff0_7e77, // 11
    0x7fff_f800_7fe0_7c77, // 12
    0x7fff_f000_7fe0_7c77, // 13
    0x7fff_e000_7fc0_7c77, // 14
    0x7fff_c000_7fc0_7c77, // 15
    0x7fff_8000_7f80_7865, // 16
    0x7fff_0000_7f80_7865, // 17
    0x7ffe_0000_7f00_7865, // 18
    0x7ffc_0000_7f00_7865, // 19
    0x7ff8_0000_7e00_7065, // 20
    0x7ff0_0000_7e00_7065, // 21
    0x7fe0_0000_7c00_7065, // 22
    0x7fc0_0000_7c00_7065, // 23
    0x7f80_0000_7800_6045, // 24
    0x7f00_0000_7800_6045, // 25
    0x7e00_0000_7000_6045, // 26
    0x7c00_0000_7000_6045, // 27
    0x7800_0000_6000_4045, // 28
    0x7000_0000_6000_4045, // 29
    0x6000_0000_4000_4045, // 30
    0x4000_0000_4000_4045, // 31
];

// Word i has the nodes whose first bucket is at least i.
static FROM: [u64; 32] = [
    0x7fff_ffff_ffff_ffff, // 0
    0x7fff_ffff_7fff_7f74, // 1
    0x7fff_fffe_7fff_7f74, // 2
    0x7fff_fffc_7ffe_7f74, // 3
    0x7fff_fff8_7ffe_7f74, // 4
    0x7fff_fff0_7ffc_7e74, // 5
    0x7fff_ffe0_7ffc_7e74, // 6
    0x7fff_ffc0_7ff8_7e74, // 7
    0x7fff_ff80_7ff8_7e74, // 8
    0x7fff_ff00_7ff0_7c64, // 9
    0x7fff_fe00_7ff0_7c64, // 10
    0x7fff_fc00_7fe0_7c64, // 11
    0x7fff_f800_7fe0_7c64, // 12
    0x7fff_f000_7fc0_7864, // 13
    0x7fff_e000_7fc0_7864, // 14
    0x7fff_c000_7f80_7864, // 15
    0x7fff_8000_7f80_7864, // 16
    0x7fff_0000_7f00_7040, // 17
    0x7ffe_0000_7f00_7040, // 18
    0x7ffc_0000_7e00_7040, // 19
    0x7ff8_0000_7e00_7040, // 20
    0x7ff0_0000_7c00_6040, // 21
    0x7fe0_0000_7c00_6040, // 22
    0x7fc0_0000_7800_6040, // 23
    0x7f80_0000_7800_6040, // 24
    0x7f00_0000_7000_4000, // 25
    0x7e00_0000_7000_4000, // 26
    0x7c00_0000_6000_4000, // 27
    0x7800_0000_6000_4000, // 28
    0x7000_0000_4000_0000, // 29
    0x6000_0000_4000_0000, // 30
    0x4000_0000_0000_0000, // 31
];

// Word i has the nodes whose last bucket is at most i.
static UPTO: [u64; 32] = [
    0x0000_0000_8000_0000, // 0
    0x0000_0001_8000_8000, // 1
    0x0000_0003_8000_8000, // 2
    0x0000_0007_8001_8080, // 3
    0x0000_000f_8001_8080, // 4
    0x0000_001f_8003_8080, // 5
    0x0000_003f_8003_8080, // 6
    0x0000_007f_8007_8188, // 7
    0x0000_00ff_8007_8188, // 8
    0x0000_01ff_800f_8188, // 9
    0x0000_03ff_800f_8188, // 10
    0x0000_07ff_801f_8388, // 11
    0x0000_0fff_801f_8388, // 12
    0x0000_1fff_803f_8388, // 13
    0x0000_3fff_803f_8388, // 14
    0x0000_7fff_807f_879a, // 15
    0x0000_ffff_807f_879a, // 16
    0x0001_ffff_80ff_879a, // 17
    0x0003_ffff_80ff_879a, // 18
    0x0007_ffff_81ff_8f9a, // 19
    0x000f_ffff_81ff_8f9a, // 20
    0x001f_ffff_83ff_8f9a, // 21
    0x003f_ffff_83ff_8f9a, // 22
    0x007f_ffff_87ff_9fba, // 23
    0x00ff_ffff_87ff_9fba, // 24
    0x01ff_ffff_8fff_9fba, // 25
    0x03ff_ffff_8fff_9fba, // 26
    0x07ff_ffff_9fff_bfba, // 27
    0x0fff_ffff_9fff_bfba, // 28
    0x1fff_ffff_bfff_bfba, // 29
    0x3fff_ffff_bfff_bfba, // 30
    0x7fff_ffff_ffff_ffff, // 31
];

// Word i has the nodes other than 0 whose parent's first bucket is at least i.
static PFROM: [u64; 32] = [
    0x7fff_ffff_ffff_fffe, // 0
    0x7fff_fffe_7ffe_7e60, // 1
    0x7fff_fffe_7ffe_7e60, // 2
    0x7fff_fff8_7ffe_7e60, // 3
    0x7fff_fff8_7ffe_7e60, // 4
    0x7fff_ffe0_7ff8_7e60, // 5
    0x7fff_ffe0_7ff8_7e60, // 6
    0x7fff_ff80_7ff8_7e60, // 7
    0x7fff_ff80_7ff8_7e60, // 8
    0x7fff_fe00_7fe0_7860, // 9
    0x7fff_fe00_7fe0_7860, // 10
    0x7fff_f800_7fe0_7860, // 11
    0x7fff_f800_7fe0_7860, // 12
    0x7fff_e000_7f80_7860, // 13
    0x7fff_e000_7f80_7860, // 14
    0x7fff_8000_7f80_7860, // 15
    0x7fff_8000_7f80_7860, // 16
    0x7ffe_0000_7e00_6000, // 17
    0x7ffe_0000_7e00_6000, // 18
    0x7ff8_0000_7e00_6000, // 19
    0x7ff8_0000_7e00_6000, // 20
    0x7fe0_0000_7800_6000, // 21
    0x7fe0_0000_7800_6000, // 22
    0x7f80_0000_7800_6000, // 23
    0x7f80_0000_7800_6000, // 24
    0x7e00_0000_6000_0000, // 25
    0x7e00_0000_6000_0000, // 26
    0x7800_0000_6000_0000, // 27
    0x7800_0000_6000_0000, // 28
    0x6000_0000_0000_0000, // 29
    0x6000_0000_0000_0000, // 30
    0x0000_0000_0000_0000, // 31
];

// Word i has the nodes other than 0 whose parent's last bucket is at most i.
static PUPTO: [u64; 32] = [
    0x0000_0000_0000_0000, // 0
    0x0000_0001_8000_0000, // 1
    0x0000_0001_8000_0000, // 2
    0x0000_0007_8001_8000, // 3
    0x0000_0007_8001_8000, // 4
    0x0000_001f_8001_8000, // 5
    0x0000_001f_8001_8000, // 6
    0x0000_007f_8007_8180, // 7
    0x0000_007f_8007_8180, // 8
    0x0000_01ff_8007_8180, // 9
    0x0000_01ff_8007_8180, // 10
    0x0000_07ff_801f_8180, // 11
    0x0000_07ff_801f_8180, // 12
    0x0000_1fff_801f_8180, // 13
    0x0000_1fff_801f_8180, // 14
    0x0000_7fff_807f_8798, // 15
    0x0000_7fff_807f_8798, // 16
    0x0001_ffff_807f_8798, // 17
    0x0001_ffff_807f_8798, // 18
    0x0007_ffff_81ff_8798, // 19
    0x0007_ffff_81ff_8798, // 20
    0x001f_ffff_81ff_8798, // 21
    0x001f_ffff_81ff_8798, // 22
    0x007f_ffff_87ff_9f98, // 23
    0x007f_ffff_87ff_9f98, // 24
    0x01ff_ffff_87ff_9f98, // 25
    0x01ff_ffff_87ff_9f98, // 26
    0x07ff_ffff_9fff_9f98, // 27
    0x07ff_ffff_9fff_9f98, // 28
    0x1fff_ffff_9fff_9f98, // 29
    0x1fff_ffff_9fff_9f98, // 30
    0x7fff_ffff_ffff_fffe, // 31
];

// Worked words: nodes 0, 1, 3, 7, 15 and 31; all; nodes 0, 2, 6, 14, 30 and 62; node 62; nodes 61 and 62; none.
const _: () = prove!(
    BEGIN[0] == 2147516555
        && REACH[0] == 9223372036854775807
        && REACH[31] == 4611686019501146181
        && FROM[31] == 4611686018427387904
        && PFROM[30] == 6917529027641081856
        && PUPTO[0] == 0
);

// The nodes whose first bucket is at most this one.
fn begin(bucket: u32) -> u64
    requires { bucket < 32 }
    ensures { result ≡ nodes_where (λ node. leb (covered node).first bucket) }
{
    BEGIN[bucket as usize]
}

// The nodes whose last bucket is at least this one.
fn reach(bucket: u32) -> u64
    requires { bucket < 32 }
    ensures { result ≡ nodes_where (λ node. leb bucket (covered node).last) }
{
    REACH[bucket as usize]
}

// The nodes whose first bucket is at least this one.
fn from(bucket: u32) -> u64
    requires { bucket < 32 }
    ensures { result ≡ nodes_where (λ node. leb bucket (covered node).first) }
{
    FROM[bucket as usize]
}

// The nodes whose last bucket is at most this one.
fn up_to(bucket: u32) -> u64
    requires { bucket < 32 }
    ensures { result ≡ nodes_where (λ node. leb (covered node).last bucket) }
{
    UPTO[bucket as usize]
}

// The nodes other than 0 whose parent's first bucket is at least this one.
fn parent_from(bucket: u32) -> u64
    requires { bucket < 32 }
    ensures { result ≡ nodes_where (parent_passes (λ node. leb bucket (covered node).first)) }
{
    PFROM[bucket as usize]
}

// The nodes other than 0 whose parent's last bucket is at most this one.
fn parent_up_to(bucket: u32) -> u64
    requires { bucket < 32 }
    ensures { result ≡ nodes_where (parent_passes (λ node. leb (covered node).last bucket)) }
{
    PUPTO[bucket as usize]
}

// The nodes that an interval is placed at.
pub fn canonical_mask(first: u32, last: u32) -> u64
    requires order { first ≤ last }
    requires within { last < 32 }
    ensures value { result ≡ canonical_nodes (between first last) }
    ensures decodes { interval_of result ≡ between first last }
    ensures few { length (nodes_of result) ≤ 8 }
    ensures below { result < 2 ^ (32 + last) }
    ensures meets { (low high : ℕ) → low ≤ high → high < 32
        → nat_eq (bit_and result (meeting_set (between low high))) 0
        ≡ not (overlap (between first last) (between low high)) }
{
    from(first) & up_to(last) & !(parent_from(first) & parent_up_to(last))
}

// The nodes that something which overlaps an interval may be placed at.
pub fn meeting_mask(first: u32, last: u32) -> u64
    requires order { first ≤ last }
    requires within { last < 32 }
    ensures value { result ≡ meeting_set (between first last) }
    ensures below { result < 2 ^ (32 + last) }
{
    reach(first) & begin(last)
}
