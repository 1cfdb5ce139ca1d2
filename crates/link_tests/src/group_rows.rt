// Rows of code that is linked as groups of items, or almost is, each with the halfwords of the text. Frames have 16
// bytes if nothing else is said; `ra, s0` are the registers that are saved or restored, in the order of their slots
// from the highest on.

/// Groups that are one instruction.
pub const FUSED: &str = "
alone ff010113 00912623 00812423 00112223 @ zc text = b862 | s1, s0, ra are saved
alone ff010113 00112223 00912623 00812423 @ zc text = b862 | in another order
alone ff010113 00912623 00812423 00112223 @ zc places = 0:1:0:0 0:1:16:2 | the stores are at no place
alone ff010113 00112623 00812423 @ zc text = b842 c422 | ra alone is a list, and s0 in a lower slot is saved apart
alone fc010113 03b12e23 03a12c23 03912a23 03812823 03712623 03612423 03512223 03412023 01312e23 01212c23 00912a23 00812823 00112623 @ zc text = b8f2 | all 13 registers, 64 bytes
alone f9010113 07b12623 07a12423 07912223 07812023 05712e23 05612c23 05512a23 05412823 05312623 05212423 04912223 04812023 02112e23 @ zc text = b8fe | and 112
alone 00c12083 01010113 00000073 @ zc text = ba42 0073 0000 | ra is restored
alone 00c12083 01010113 00008067 @ zc text = be42 | with a return
alone 00000513 00812083 00c12403 01010113 00008067 @ zc text = bc52 | s0, ra with a return of 0, which is set before the loads
alone 00c12403 00812083 00000513 01010113 00008067 @ zc text = bc52 | before the addition
alone 00c12403 00812083 01010113 00000513 00008067 @ zc text = bc52 | before the return
alone 00058493 00050413 @ zc text = ac26 | s1 gets a1, s0 gets a0
alone 00050913 00058b93 @ zc text = ad3e | s2 gets a0, s7 gets a1
alone 000b0593 00098513 @ zc text = adfa | a1 gets s6, a0 gets s3
alone 00040513 00040593 @ zc text = ac62 | a0 and a1 get one register
alone ff010113 00112623 00050413 00058493 00c12083 01010113 @ zc text = b842 ac26 ba42 | a push, moves and a pop
";

/// Frames that are too large for one instruction: the second one comes after a push, and before a pop.
pub const SPLIT: &str = "
alone fc010113 02112e23 @ zc text = b84e | 64 bytes are the most of ra by one
alone f8010113 06812e23 06112c23 @ zc text = b85e 7139 | s0, ra in 128 bytes
alone f8010113 06812e23 06112c23 @ zc places = 0:1:0:0 0:1:12:4 | between the two is no place
alone fb010113 04112623 @ zc text = b84e 1141 | ra in 80
alone 81010113 7e112623 @ zc text = b84e 0113 8501 | in 2032, with a word
alone 04c12083 05010113 00008067 @ zc text = 0141 be4e | ra from 80
alone 00000513 7ec12083 7f010113 00008067 @ zc text = 0113 7b01 bc4e | from 2032, with 0
alone 7ec12083 7f010113 00000073 @ zc text = 0113 7b01 ba4e 0073 0000 | without a return
";

/// Code that isn't a push or pop: each item is written by itself.
pub const FRAMES: &str = "
alone 00c12083 00812403 01010113 00008067 @ zc text = 40b2 4422 0141 8082 | ra above s0
alone ff010113 00812623 00912423 00112223 @ zc text = 1141 c622 c426 c206 | s0 above s1
alone ff010113 00912623 00112223 @ zc text = 1141 c626 c206 | a slot is missing
alone 00c12483 00412083 01010113 00008067 @ zc text = 44b2 4092 0141 8082 | in a pop
alone ff010113 00912623 00812423 @ zc text = 1141 c626 c422 | that of ra
alone ff010113 00912623 00912623 00112223 @ zc text = 1141 c626 c626 c206 | one is used twice, and one isn't
alone 00c12483 00c12483 00412083 01010113 00008067 @ zc text = 44b2 44b2 4092 0141 8082 | in a pop
alone ff010113 00912623 00812423 00112023 @ zc text = 1141 c626 c422 c006 | ra out of place
alone fd010113 03a12623 03912423 03812223 03712023 01612e23 01512c23 01412a23 01312823 01212623 00912423 00812223 00112023 @ zc text = 7179 d66a d466 d262 d05e ce5a cc56 ca52 c84e c64a c426 c222 c006 | no list has s10 without s11
alone 02c12d03 02812c83 02412c03 02012b83 01c12b03 01812a83 01412a03 01012983 00c12903 00812483 00412403 00012083 03010113 00008067 @ zc text = 5d32 5ca2 5c12 5b82 4b72 4ae2 4a52 49c2 4932 44a2 4412 4082 6145 8082 | in a pop
alone fe810113 00112a23 @ zc text = 1121 ca06 | 24 bytes
alone 01412083 01810113 00008067 @ zc text = 40d2 0161 8082 | in a pop
alone ff010113 01312623 01212423 00912223 00812023 fe112e23 @ zc text = 1141 c64e c44a c226 c022 2e23 fe11 | 16 for five registers
alone 80010113 7e112e23 @ zc text = 0113 8001 2e23 7e11 | 2048
alone 01010113 00112623 @ zc text = 0141 c606 | sp goes up in a push
alone 00c12083 ff010113 00008067 @ zc text = 40b2 1141 8082 | down in a pop
alone ff010113 00111623 @ zc text = 1141 1623 0011 | half of ra is saved
alone ff010113 00152623 @ zc text = 1141 2623 0015 | elsewhere
";

/// Ends of pops that don't fit, or fit only a shorter ending.
pub const ENDS: &str = "
alone 00c12083 01010113 00028067 @ zc text = ba42 8282 | another jump
alone 00c12083 01010113 000080e7 @ zc text = ba42 9082 | a call
alone 00c12083 01010113 00100513 00008067 @ zc text = ba42 4505 8082 | a return of 1
alone 00000513 00c12083 01010113 00000073 @ zc text = 4501 ba42 0073 0000 | 0 without a return
alone 00c12403 00000513 00812083 01010113 00008067 @ zc text = 4432 4501 40a2 0141 8082 | 0 is set between two loads
alone 00812403 00000513 00c12083 01010113 00008067 @ zc text = 4422 bc42 | the upper one is a pop by itself
alone 00000513 00c12083 00000513 01010113 00008067 @ zc text = 4501 bc42 | 0 is set before the load and before the addition
alone 00000513 00c12083 01010113 00000513 00008067 @ zc text = 4501 bc42 | before the load and before the return
alone 00c12083 00000513 01010113 00000513 00008067 @ zc text = 40b2 4501 0141 4501 8082 | before the addition and before the return
alone 00c12083 01010113 00000513 00000513 00008067 @ zc text = ba42 4501 4501 8082 | twice before the return
";

/// Moves that make no pair, or that could be in two pairs.
pub const PAIRS: &str = "
alone 00050413 00058413 @ zc text = 842a 842e | one register gets both
alone 00050413 00050493 @ zc text = 842a 84aa | a0 goes to two
alone 00040513 00048513 @ zc text = 8522 8526 | a0 gets two
alone 00050413 00058c13 @ zc text = 842a 8c2e | s8
alone 00040513 00028593 @ zc text = 8522 8596 | t0
alone 00150413 00058493 @ zc text = 0413 0015 84ae | a sum
alone 00a00433 00b004b3 @ zc text = 842a 84ae | sums with zero
alone 00050413 00000013 00058493 @ zc text = 842a 0001 84ae | not one behind the other
alone 00050413 00058493 00050913 @ zc text = ac26 892a | the second and third would be a pair too
alone 00050413 00058493 00050913 00058993 @ zc text = ac26 ad2e | two pairs
alone 00058493 00058413 00050913 @ zc text = 84ae ad22 | the first isn't in the pair
";

/// Groups that a branch would go into the middle of, and groups with a relocation.
pub const LEADS: &str = "
alone ff010113 00912623 00812423 00112223 00050063 0:16:1:16:8 @ zc text = 1141 c626 c422 c206 dd75 | to the second store
alone ff010113 00912623 00812423 00112223 00050063 0:16:1:16:4 @ zc text = 1141 c626 c422 c206 dd6d | to the first
alone ff010113 00912623 00812423 00112223 00050063 0:16:1:16:0 @ zc text = b862 dd7d | before it
alone 00050063 00c12403 00812083 01010113 00008067 0:0:1:16:8 @ zc text = c111 4432 40a2 0141 8082 | to the second load
alone 00050063 00c12403 00812083 01010113 00008067 0:0:1:16:12 @ zc text = c119 4432 40a2 0141 8082 | to the addition
alone 00050063 00c12403 00812083 01010113 00008067 0:0:1:16:16 @ zc text = c111 ba52 8082 | to the return
alone 00050063 00c12403 00812083 01010113 00008067 0:0:1:16:4 @ zc text = c109 be52 | before the first load
alone 00050063 00000513 00c12403 00812083 01010113 00008067 0:0:1:16:8 @ zc text = c111 4501 be52 | behind the 0
alone 00050063 00050413 00058493 0:0:1:16:8 @ zc text = c111 842a 84ae | to the second move
alone ff010113 00912623 00812423 00112223 0:8:5:28:-8 @ zc text = 1141 c626 c422 c206 | a store with the lower part of 8
alone 00c12403 00812083 01010113 00008067 0:4:5:27:-8 @ zc text = 4432 40a2 0141 8082 | a load
alone 00050413 00058493 0:4:5:27:-16 @ zc text = 842a 84ae | a move with that of 0
alone ff010113 00912623 00812423 00112223 0:8:1:51:0 @ zc text = b862 | RELAX asks for nothing
";

/// Two objects with a call from one to the other, and in the other a push, the address of data, and a pop that returns 0:
///
///     auipc ra,0; jalr ra,0(ra) under CALL; li a7,93; ecall
///
///     addi sp,sp,-16; sw ra,12(sp); li a0,1; lui a1,0 under HI20; addi a1,a1,0 under LO12_I; li a2,3; li a7,64; ecall
///     li a0,0; lw ra,12(sp); addi sp,sp,16; ret
pub const PROGRAM: &str = "
bare 556:0 384:2 00000097 000080e7 05d00893 00000073 0:0:9:18:0 /ff010113 /00112623 /00100513 /000005b7 /00058593 /00300613 /04000893 /00000073 /00000513 /00c12083 /01010113 /00008067 /0:12:4:26:0 /1:16:4:27:0 @ zc text = 2029 0893 05d0 0073 0000 b842 4505 05b7 0010 85ae 460d 0893 0400 0073 0000 bc42
bare 556:0 384:2 00000097 000080e7 05d00893 00000073 0:0:9:18:0 /ff010113 /00112623 /00100513 /000005b7 /00058593 /00300613 /04000893 /00000073 /00000513 /00c12083 /01010113 /00008067 /0:12:4:26:0 /1:16:4:27:0 @ zc places = 0:1:0:0 0:1:8:2 0:1:12:6 0:1:16:10 1:1:0:10 1:1:8:12 1:1:12:14 1:1:16:18 1:1:20:20 1:1:24:22 1:1:28:26 1:1:32:30 1:1:48:32
bare 556:0 384:2 00000097 000080e7 05d00893 00000073 0:0:9:18:0 /ff010113 /00112623 /00100513 /000005b7 /00058593 /00300613 /04000893 /00000073 /00000513 /00c12083 /01010113 /00008067 /0:12:4:26:0 /1:16:4:27:0 @ zc counts = 64 32 15 4 0 1 1 0
";
