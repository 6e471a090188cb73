//! The boxes S1 to S8 on slices: circuits of gates that answer a group of each block of a batch
//! at once.
//!
//! The six slices that a box takes are the bits of its groups, bit 1 first, and the four that it
//! gives are the bits of its entries, bit 1 first.
//!
//! The circuits were found by a search, on which nothing rests: that they answer as the boxes is
//! proved. `a & !b` counts as one gate. Who changes a gate changes it in the list of gates of the
//! proof of the box too, which has them in the same order.

ghost use Rattle.des.specs.Tables.{s1, s2, s3, s4, s5, s6, s7, s8};
ghost use Rattle.des_fast.specs.Slices.{ReplacesGroups};

use super::Slice;

/// The box S1 on slices (FIPS 46-3, S-boxes): a circuit of 53 gates.
#[inline(always)]
#[rattlefmt::skip]
pub(crate) fn s1<S: Slice>(group: [S; 6]) -> [S; 4]
    ensures { ReplacesGroups S.BATCH S.bit s1 group result }
{
    let [x1, x2, x3, x4, x5, x6] = group;
    let x7 = x3.not(); let x8 = x4.xor(x1); let x9 = x8.and(x6); let x10 = x9.xor(x7);
    let x11 = x10.xor(x8); let x12 = x11.xor(x9); let x13 = x10.or(x1); let x14 = x5.and(x13);
    let x15 = x12.or(x14); let x16 = x15.xor(x6); let x17 = x16.and(x1); let x18 = x17.xor(x8);
    let x19 = x9.xor(x5); let x20 = x18.and_not(x19); let x21 = x7.and_not(x20);
    let x22 = x15.xor(x7); let x23 = x21.or(x22); let x24 = x23.and(x2); let x25 = x20.or(x6);
    let x26 = x25.xor(x5); let x27 = x26.xor(x21); let x28 = x20.xor(x12); let x29 = x28.or(x9);
    let x30 = x29.and(x1); let x31 = x27.xor(x30); let x32 = x24.xor(x31);
    let x33 = x5.and_not(x2); let x34 = x25.or(x3); let x35 = x14.and(x12); let x36 = x34.xor(x35);
    let x37 = x36.and_not(x2); let x38 = x28.xor(x37); let x39 = x38.and_not(x33);
    let x40 = x39.and_not(x7); let x41 = x37.xor(x23); let x42 = x41.and_not(x35);
    let x43 = x40.xor(x42); let x44 = x43.and_not(x6); let x45 = x11.and(x4);
    let x46 = x45.xor(x24); let x47 = x46.xor(x41); let x48 = x47.and_not(x2);
    let x49 = x26.and_not(x31); let x50 = x48.xor(x49); let x51 = x50.xor(x36);
    let x52 = x44.xor(x51); let x53 = x33.and_not(x52); let x54 = x47.and_not(x40);
    let x55 = x54.xor(x36); let x56 = x55.and_not(x6); let x57 = x56.xor(x19);
    let x58 = x57.xor(x40); let x59 = x53.xor(x58);
    [x32, x59, x38, x52]
}

/// The box S2 on slices (FIPS 46-3, S-boxes): a circuit of 50 gates.
#[inline(always)]
#[rattlefmt::skip]
pub(crate) fn s2<S: Slice>(group: [S; 6]) -> [S; 4]
    ensures { ReplacesGroups S.BATCH S.bit s2 group result }
{
    let [x1, x2, x3, x4, x5, x6] = group;
    let x7 = x5.xor(x6); let x8 = x7.xor(x1); let x9 = x7.and_not(x8); let x10 = x5.and_not(x9);
    let x11 = x10.and(x1); let x12 = x11.or(x4); let x13 = x10.and(x4); let x14 = x6.or(x3);
    let x15 = x13.xor(x14); let x16 = x15.and_not(x1); let x17 = x12.xor(x16); let x18 = x2.not();
    let x19 = x17.and_not(x18); let x20 = x11.xor(x8); let x21 = x3.xor(x20); let x22 = x21.not();
    let x23 = x22.or(x11); let x24 = x23.xor(x13); let x25 = x19.xor(x24); let x26 = x6.or(x1);
    let x27 = x15.xor(x2); let x28 = x6.or(x13); let x29 = x20.and_not(x18);
    let x30 = x12.xor(x23); let x31 = x25.or(x9); let x32 = x31.and(x26); let x33 = x32.xor(x7);
    let x34 = x30.xor(x33); let x35 = x29.or(x34); let x36 = x28.or(x35); let x37 = x27.xor(x36);
    let x38 = x27.and_not(x3); let x39 = x35.or(x2); let x40 = x31.and_not(x5);
    let x41 = x40.xor(x22); let x42 = x39.xor(x41); let x43 = x42.or(x21); let x44 = x38.xor(x43);
    let x45 = x44.and_not(x4); let x46 = x37.xor(x45); let x47 = x26.xor(x46);
    let x48 = x24.or(x19); let x49 = x47.and(x48); let x50 = x18.or(x49);
    let x51 = x6.and_not(x38); let x52 = x50.and_not(x51); let x53 = x8.xor(x4);
    let x54 = x52.xor(x53); let x55 = x54.or(x3); let x56 = x47.xor(x55);
    [x25, x54, x56, x42]
}

/// The box S3 on slices (FIPS 46-3, S-boxes): a circuit of 49 gates.
#[inline(always)]
#[rattlefmt::skip]
pub(crate) fn s3<S: Slice>(group: [S; 6]) -> [S; 4]
    ensures { ReplacesGroups S.BATCH S.bit s3 group result }
{
    let [x1, x2, x3, x4, x5, x6] = group;
    let x7 = x4.xor(x3); let x8 = x1.xor(x7); let x9 = x8.xor(x5); let x10 = x8.or(x7);
    let x11 = x10.and_not(x5); let x12 = x6.or(x4); let x13 = x12.and(x1); let x14 = x6.xor(x3);
    let x15 = x13.xor(x14); let x16 = x11.xor(x15); let x17 = x16.xor(x4); let x18 = x17.not();
    let x19 = x17.and(x1); let x20 = x19.and_not(x14); let x21 = x20.xor(x2);
    let x22 = x21.xor(x10); let x23 = x22.and_not(x3); let x24 = x18.xor(x23);
    let x25 = x24.and_not(x2); let x26 = x9.xor(x25); let x27 = x22.xor(x14);
    let x28 = x27.or(x18); let x29 = x6.and(x28); let x30 = x26.xor(x29); let x31 = x13.or(x11);
    let x32 = x31.and(x26); let x33 = x31.xor(x22); let x34 = x33.and_not(x23);
    let x35 = x34.xor(x4); let x36 = x35.and_not(x5); let x37 = x32.xor(x36);
    let x38 = x37.and(x6); let x39 = x21.and(x2); let x40 = x39.xor(x16);
    let x41 = x40.and_not(x30); let x42 = x41.or(x14); let x43 = x42.and_not(x1);
    let x44 = x38.xor(x43); let x45 = x44.xor(x33); let x46 = x32.or(x27); let x47 = x2.xor(x1);
    let x48 = x46.and(x47); let x49 = x43.xor(x30); let x50 = x44.and_not(x10);
    let x51 = x50.xor(x35); let x52 = x51.xor(x11); let x53 = x4.and_not(x52);
    let x54 = x49.xor(x53); let x55 = x48.xor(x54);
    [x30, x45, x55, x40]
}

/// The box S4 on slices (FIPS 46-3, S-boxes): a circuit of 35 gates.
#[inline(always)]
#[rattlefmt::skip]
pub(crate) fn s4<S: Slice>(group: [S; 6]) -> [S; 4]
    ensures { ReplacesGroups S.BATCH S.bit s4 group result }
{
    let [x1, x2, x3, x4, x5, x6] = group;
    let x7 = x5.and_not(x4); let x8 = x7.xor(x3); let x9 = x8.xor(x4); let x10 = x2.and(x8);
    let x11 = x10.xor(x9); let x12 = x11.not(); let x13 = x12.xor(x5); let x14 = x13.xor(x2);
    let x15 = x9.or(x14); let x16 = x15.xor(x3); let x17 = x16.and(x1); let x18 = x16.or(x1);
    let x19 = x18.xor(x14); let x20 = x17.xor(x13); let x21 = x19.or(x20); let x22 = x21.xor(x7);
    let x23 = x17.and(x22); let x24 = x14.or(x10); let x25 = x6.xor(x24); let x26 = x25.xor(x5);
    let x27 = x23.xor(x26); let x28 = x27.and(x6); let x29 = x22.and(x5); let x30 = x29.xor(x20);
    let x31 = x30.and_not(x2); let x32 = x19.xor(x31); let x33 = x28.xor(x32);
    let x34 = x27.xor(x33); let x35 = x29.or(x1); let x36 = x12.and_not(x35);
    let x37 = x25.xor(x4); let x38 = x36.xor(x37); let x39 = x6.and_not(x38);
    let x40 = x39.xor(x20); let x41 = x40.xor(x38);
    [x34, x33, x41, x40]
}

/// The box S5 on slices (FIPS 46-3, S-boxes): a circuit of 51 gates.
#[inline(always)]
#[rattlefmt::skip]
pub(crate) fn s5<S: Slice>(group: [S; 6]) -> [S; 4]
    ensures { ReplacesGroups S.BATCH S.bit s5 group result }
{
    let [x1, x2, x3, x4, x5, x6] = group;
    let x7 = x3.xor(x1); let x8 = x7.or(x3); let x9 = x8.and_not(x6); let x10 = x7.xor(x9);
    let x11 = x10.or(x1); let x12 = x9.or(x4); let x13 = x12.xor(x5); let x14 = x13.xor(x3);
    let x15 = x14.xor(x4); let x16 = x15.or(x5); let x17 = x16.xor(x14); let x18 = x11.xor(x17);
    let x19 = x1.not(); let x20 = x5.xor(x19); let x21 = x20.and_not(x14);
    let x22 = x13.and_not(x6); let x23 = x21.or(x22); let x24 = x19.and_not(x23);
    let x25 = x24.xor(x16); let x26 = x25.xor(x19); let x27 = x26.and_not(x2);
    let x28 = x18.xor(x27); let x29 = x26.xor(x13); let x30 = x29.xor(x4);
    let x31 = x25.and_not(x30); let x32 = x31.xor(x12); let x33 = x8.and(x32);
    let x34 = x6.xor(x33); let x35 = x34.xor(x16); let x36 = x35.and(x12);
    let x37 = x36.and_not(x29); let x38 = x20.xor(x2); let x39 = x10.or(x4);
    let x40 = x39.and_not(x2); let x41 = x40.xor(x35); let x42 = x17.and_not(x41);
    let x43 = x1.and_not(x42); let x44 = x32.and_not(x31); let x45 = x44.xor(x15);
    let x46 = x35.and(x34); let x47 = x45.xor(x46); let x48 = x47.and(x2); let x49 = x13.xor(x48);
    let x50 = x22.xor(x49); let x51 = x43.xor(x50); let x52 = x36.xor(x51); let x53 = x38.and(x52);
    let x54 = x37.or(x53); let x55 = x54.xor(x20); let x56 = x55.xor(x41); let x57 = x28.xor(x56);
    [x57, x41, x28, x52]
}

/// The box S6 on slices (FIPS 46-3, S-boxes): a circuit of 48 gates.
#[inline(always)]
#[rattlefmt::skip]
pub(crate) fn s6<S: Slice>(group: [S; 6]) -> [S; 4]
    ensures { ReplacesGroups S.BATCH S.bit s6 group result }
{
    let [x1, x2, x3, x4, x5, x6] = group;
    let x7 = x3.not(); let x8 = x7.and(x1); let x9 = x8.or(x5); let x10 = x7.or(x1);
    let x11 = x9.and(x10); let x12 = x11.xor(x2); let x13 = x12.or(x3); let x14 = x13.xor(x1);
    let x15 = x5.xor(x14); let x16 = x6.xor(x4); let x17 = x15.xor(x16); let x18 = x15.and_not(x4);
    let x19 = x18.xor(x12); let x20 = x19.and_not(x5); let x21 = x20.and_not(x16);
    let x22 = x13.and_not(x21); let x23 = x22.xor(x16); let x24 = x23.and(x14);
    let x25 = x24.xor(x1); let x26 = x25.and(x6); let x27 = x26.xor(x19); let x28 = x26.xor(x23);
    let x29 = x27.and_not(x28); let x30 = x20.xor(x29); let x31 = x6.or(x5);
    let x32 = x4.and_not(x1); let x33 = x31.and(x32); let x34 = x33.xor(x7);
    let x35 = x34.and_not(x16); let x36 = x30.xor(x35); let x37 = x36.and(x33);
    let x38 = x17.or(x37); let x39 = x36.and_not(x5); let x40 = x38.xor(x39);
    let x41 = x38.and_not(x1); let x42 = x40.or(x28); let x43 = x42.and_not(x6);
    let x44 = x43.xor(x12); let x45 = x44.and_not(x32); let x46 = x45.xor(x33);
    let x47 = x26.and(x9); let x48 = x47.xor(x3); let x49 = x48.xor(x17); let x50 = x46.xor(x49);
    let x51 = x41.xor(x50); let x52 = x9.and_not(x30); let x53 = x2.and_not(x52);
    let x54 = x53.xor(x49);
    [x40, x51, x54, x27]
}

/// The box S7 on slices (FIPS 46-3, S-boxes): a circuit of 50 gates.
#[inline(always)]
#[rattlefmt::skip]
pub(crate) fn s7<S: Slice>(group: [S; 6]) -> [S; 4]
    ensures { ReplacesGroups S.BATCH S.bit s7 group result }
{
    let [x1, x2, x3, x4, x5, x6] = group;
    let x7 = x3.not(); let x8 = x3.or(x2); let x9 = x8.xor(x5); let x10 = x9.xor(x2);
    let x11 = x4.and_not(x10); let x12 = x9.xor(x1); let x13 = x10.or(x3); let x14 = x13.and(x4);
    let x15 = x12.xor(x14); let x16 = x15.xor(x10); let x17 = x16.xor(x7); let x18 = x11.xor(x17);
    let x19 = x18.and_not(x1); let x20 = x9.and(x4); let x21 = x20.xor(x16);
    let x22 = x2.and_not(x17); let x23 = x21.or(x22); let x24 = x23.and(x6);
    let x25 = x19.xor(x24); let x26 = x22.and(x1); let x27 = x26.xor(x6); let x28 = x11.xor(x27);
    let x29 = x9.and_not(x28); let x30 = x6.and_not(x29); let x31 = x25.and(x30);
    let x32 = x31.xor(x29); let x33 = x18.xor(x32); let x34 = x33.xor(x13); let x35 = x34.or(x12);
    let x36 = x35.and_not(x30); let x37 = x36.xor(x25); let x38 = x7.and_not(x37);
    let x39 = x38.xor(x33); let x40 = x21.xor(x12); let x41 = x40.xor(x25); let x42 = x21.xor(x9);
    let x43 = x42.xor(x27); let x44 = x34.or(x22); let x45 = x43.and(x44);
    let x46 = x27.and_not(x4); let x47 = x45.xor(x46); let x48 = x47.xor(x37);
    let x49 = x1.and(x48); let x50 = x41.and(x49); let x51 = x30.and_not(x50);
    let x52 = x51.and(x3); let x53 = x39.and(x52); let x54 = x53.xor(x49); let x55 = x54.xor(x43);
    let x56 = x51.xor(x15);
    [x55, x41, x39, x56]
}

/// The box S8 on slices (FIPS 46-3, S-boxes): a circuit of 41 gates.
#[inline(always)]
#[rattlefmt::skip]
pub(crate) fn s8<S: Slice>(group: [S; 6]) -> [S; 4]
    ensures { ReplacesGroups S.BATCH S.bit s8 group result }
{
    let [x1, x2, x3, x4, x5, x6] = group;
    let x7 = x3.or(x2); let x8 = x1.xor(x3); let x9 = x7.xor(x5); let x10 = x8.and_not(x9);
    let x11 = x4.or(x1); let x12 = x10.xor(x11); let x13 = x12.or(x5); let x14 = x13.and(x2);
    let x15 = x10.xor(x4); let x16 = x14.xor(x15); let x17 = x16.or(x5); let x18 = x17.and(x4);
    let x19 = x7.and_not(x18); let x20 = x15.xor(x13); let x21 = x2.and_not(x4);
    let x22 = x8.xor(x9); let x23 = x22.and(x6); let x24 = x21.and(x23); let x25 = x20.or(x24);
    let x26 = x25.and(x23); let x27 = x26.xor(x6); let x28 = x1.and_not(x27);
    let x29 = x28.xor(x2); let x30 = x29.xor(x8); let x31 = x25.xor(x30); let x32 = x31.or(x4);
    let x33 = x28.and(x32); let x34 = x33.or(x16); let x35 = x34.xor(x22); let x36 = x35.xor(x31);
    let x37 = x19.xor(x36); let x38 = x37.or(x26); let x39 = x38.xor(x24); let x40 = x6.xor(x39);
    let x41 = x6.not(); let x42 = x40.or(x41); let x43 = x42.xor(x8); let x44 = x43.xor(x17);
    let x45 = x44.xor(x21); let x46 = x45.xor(x40); let x47 = x35.xor(x41);
    [x46, x47, x31, x45]
}
