// Rows of compressed objects, most of them with their code in halfwords. The word at 36 in a file is e_flags, where 1
// is RVC, and the word at 488 is the alignment of its code.

/// The offset after the item at a place, and the item; the plain layout, and where basic blocks begin.
pub const ITEMS: &str = "
alone 36:1 0505 852e 952e @ item 0:1:0 = 2 Op WithImm { op: Addi, rd: Reg { number: 10 }, first: Reg { number: 10 }, imm: 1 } | c.addi
alone 36:1 0505 852e 952e @ item 0:1:2 = 4 Op WithImm { op: Addi, rd: Reg { number: 10 }, first: Reg { number: 11 }, imm: 0 } | c.mv adds 0
alone 36:1 0505 852e 952e @ item 0:1:4 = 6 Op WithReg { op: Add, rd: Reg { number: 10 }, first: Reg { number: 11 }, second: Reg { number: 10 } } | the later register of c.add comes first
alone 36:1 0505 852e 952e @ item 0:1:1 = none | within a halfword
alone 36:1 0001 00000537 0001 @ item 0:1:2 = 6 Op Upper { op: Lui, rd: Reg { number: 10 }, imm: 0 } | a word at no multiple of 4
alone 36:1 0001 00000537 0001 @ item 0:1:4 = none | within it
alone 36:1 0001 00000537 0001 @ item 0:1:6 = 8 Op WithImm { op: Addi, rd: Reg { number: 0 }, first: Reg { number: 0 }, imm: 0 } | behind it
alone 36:1 0001 0537 @ item 0:1:2 = 4 RawShort 1335 | two bytes are left of what should have four
alone 36:1 0000 @ item 0:1:0 = 2 RawShort 0 | zeros
alone 36:1 b842 @ item 0:1:0 = 2 RawShort 47170 | cm.push
alone 36:1 0001 01751073 @ item 0:1:2 = 6 Raw 24449139 | csrrw
alone 36:1 4015 @ item 0:1:0 = 2 Op WithImm { op: Addi, rd: Reg { number: 0 }, first: Reg { number: 0 }, imm: 5 } | a hint
alone 36:1 9002 @ item 0:1:0 = 2 Op Ebreak
alone 36:1 a009 @ item 0:1:0 = 2 Jump Jal { rd: Reg { number: 0 }, distance: 0 } 0:1:2 | c.j to the end
alone 36:1 a011 00000013 @ item 0:1:0 = 2 RawShort 40977 | c.j into a word
alone 36:1 0001 ffdff06f @ item 0:1:2 = 6 Raw 4292866159 | jal to before the start
alone 36:1 c111 0001 0001 @ item 0:1:0 = 2 Branch Branch { op: Beq, first: Reg { number: 10 }, second: Reg { number: 0 }, distance: 0 } 0:1:4
alone 36:1 a001 0001 0:0:1:45:4 @ item 0:1:0 = 2 Jump Jal { rd: Reg { number: 0 }, distance: 0 } 0:1:4 | RVC_JUMP at c.j
alone 36:1 2001 0001 0:0:1:45:2 @ item 0:1:0 = 2 Jump Jal { rd: Reg { number: 1 }, distance: 0 } 0:1:2 | at c.jal
alone 36:1 e101 0001 0:0:1:44:2 @ item 0:1:0 = 2 Branch Branch { op: Bne, first: Reg { number: 10 }, second: Reg { number: 0 }, distance: 0 } 0:1:2 | RVC_BRANCH at c.bnez
alone 36:1 a001 0:0:9:45:0 @ item 0:1:0 = 2 RawShort 40961 | RVC_JUMP to a weak name without a definition
alone 36:1 c101 0:0:9:44:0 @ item 0:1:0 = 2 RawShort 49409 | RVC_BRANCH
alone 36:1 0001 0001 0:0:0:43:2 @ item 0:1:0 = 2 Align 2
alone 36:1 0001 00000097 000080e7 0:2:1:18:0 @ item 0:1:2 = 10 Call x1 x1 0:1:0
alone 36:1 488:2 450d 05d00893 00000073 @ lies 0:1:0 0:1:2 0:1:4 0:1:6 0:1:10 = 10 3 0 2 none 6 10
alone 36:1 4505 0000 0000 0000 00000073 0:2:0:43:6 @ lies 0:1:2 0:1:4 0:1:8 0:1:12 = 12 3 2 none 8 12 | padding of its own size
alone 36:1 4505 4505 0000 0000 0000 00000073 0:4:0:43:6 @ lies 0:1:4 0:1:10 0:1:14 = 12 4 4 8 12 | of less
alone 36:1 4505 0000 0000 00000073 0:2:0:43:4 @ lies 0:1:2 0:1:6 0:1:10 = 12 3 2 8 12 | and of more
alone 36:1 c111 4505 8082 @ blocks 1 = 0 2 4 6
alone 36:1 c111 4505 be42 4505 @ blocks 1 = 0 2 4 | a branch to cm.popret, behind which nothing begins
";

/// Relocations and targets.
pub const FAULTS: &str = "
alone 36:1 a001 0001 0:0:1:45:2 = linked | RVC_JUMP
alone 36:1 c101 0001 0:0:1:44:2 = linked | RVC_BRANCH
alone 36:17 a001 0001 0:0:1:45:2 = linked | with total store order as well
alone 36:16 a0010537 0:2:1:45:0 = 0 RelocKind 1:2 | without RVC
bare 36:1 a001 /00000013 /0:0:1:45:0 = 1 RelocKind 1:0 | with it in another object alone
alone 36:1 00000013 5:0:1:45:0 = 0 RelocKind 3:0 | in data
alone 36:1 a001 0001 0:0:1:44:2 = 0 RelocPlace 1:0 | RVC_BRANCH at c.j
alone 36:1 c101 0001 0:0:1:45:2 = 0 RelocPlace 1:0 | RVC_JUMP at c.beqz
alone 36:1 0000006f 0:0:1:45:0 = 0 RelocPlace 1:0 | RVC_JUMP at jal
alone 36:1 a001 0001 0:0:1:17:0 = 0 RelocPlace 1:0 | JAL at c.j
alone 36:1 6505 0001 0:0:1:26:0 = 0 RelocPlace 1:0 | HI20 at c.lui
alone 36:1 b842 be42 0:0:1:45:0 = 0 RelocPlace 1:0 | RVC_JUMP at cm.push
alone 36:1 b842 be42 0:2:1:44:0 = 0 RelocPlace 1:2 | RVC_BRANCH at cm.popret
alone 36:1 ba42 0001 0:0:5:27:0 = 0 RelocPlace 1:0 | LO12_I at cm.pop
alone 36:1 a0010537 0:2:1:45:0 = 0 RelocPlace 1:2 | within a word
alone 36:1 0001 00000013 00000013 0:4:1:1:0 = 0 RelocPlace 1:4 | within two
alone 36:1 a0010537 0:0:5:26:0 1:2:1:45:0 = 0 RelocPlace 1:0 | within the field of another
alone 36:1 0001 00000537 0:2:5:26:0 = linked | HI20 at no multiple of 4
alone 36:1 0001 00000537 0:1:5:26:0 = 0 RelocPlace 1:1 | at an odd offset
alone 36:1 0001 0001 0:2:1:1:0 = 0 RelocPlace 1:2 | past the end
alone 36:1 00000517 0001 00050513 0:0:5:23:0 1:6:1:24:0 = linked | a lower part
alone 36:1 0001 0:0:0:43:2 = linked | the least ALIGN
alone 36:1 65537*64 0:0:0:43:254 = linked | the greatest
alone 36:1 65537*64 0:0:0:43:256 = 0 RelocPlace 1:0 | ALIGN of 256
alone 36:1 0001 0001 0:0:0:43:3 = 0 RelocPlace 1:0 | of 3
alone 00000013 0:0:0:43:2 = 0 RelocPlace 1:0 | of 2 without RVC
alone 36:1 0001 00000537 a001 0:6:1:45:4 = 0 BadTarget 1:6 | to within a word
alone 36:1 0001 00000537 a001 0:6:1:45:2 = linked | to its start
alone 36:1 a001 0:0:5:45:0 = 0 BadTarget 1:0 | RVC_JUMP to a number
alone 36:1 c101 0:0:5:44:0 = 0 BadTarget 1:0 | RVC_BRANCH
alone 36:1 c101 a001 0:0:9:44:0 1:2:9:45:0 = linked | to a weak name without a definition
alone 36:1 0001 00000537 5:0:1:1:2 6:4:1:1:6 = linked | from data
alone 36:1 0001 00000537 5:0:1:1:4 = 0 BadTarget 3:0 | to within a word
";

/// How far branches and jumps of two bytes reach in the plain layout.
pub const REACHES: &str = "
alone 36:1 a001 65537*511 115*1 0:0:1:45:2046 = linked | c.j just reaches
alone 36:1 a001 0001 65537*511 115*1 0:0:1:45:2048 = 0 Range 1:0 | and doesn't
alone 36:1 65537*512 a001 0:2048:1:45:0 = linked | back
alone 36:1 0001 65537*512 a001 0:2050:1:45:0 = 0 Range 1:2050 | too far back
alone 36:1 c101 65537*63 115*1 0:0:1:44:254 = linked | c.beqz just reaches
alone 36:1 c101 0001 65537*63 115*1 0:0:1:44:256 = 0 Range 1:0 | and doesn't
alone 36:1 65537*64 c101 0:256:1:44:0 = linked | back
alone 36:1 0001 65537*64 c101 0:258:1:44:0 = 0 Range 1:258 | too far back
alone 36:1 affd 0001 0001 65537*510 115*1 = linked | c.j without a relocation
alone 36:1 affd 0001 0001 65537*510 115*1 0:2:0:43:4 = 0 Range 1:0 | the same over padding of more than its own size
alone 36:1 0000006f 65537*1024 115*1 0:0:1:17:4100 = linked | jal reaches farther
";

/// What both links write for compressed objects: halfwords of the text, and other things.
pub const LINKS: &str = "
alone 36:1 488:2 450d 05d00893 00000073 @ plain text = 450d 0893 05d0 0073 0000
alone 36:1 488:2 450d 05d00893 00000073 @ plain places = 0:1:0:0 0:1:2:2 0:1:6:6 0:1:10:10
alone 36:1 488:2 450d 05d00893 00000073 @ plain counts = 10 10 3 0 0 0 0 0
alone 36:1 488:2 450d 05d00893 00000073 @ plain flags = [1, 0, 0, 0]
alone 36:1 488:2 450d 05d00893 00000073 @ zc text = 450d 0893 05d0 0073 0000
alone 36:1 488:2 450d 05d00893 00000073 @ zc places = 0:1:0:0 0:1:2:2 0:1:6:6 0:1:10:10
alone 36:1 488:2 450d 05d00893 00000073 @ zc counts = 10 10 3 1 0 0 0 0
alone 36:1 488:2 450d 05d00893 00000073 @ zc flags = [1, 0, 0, 0]
alone 36:17 450d @ plain flags = [1, 0, 0, 0] | total store order isn't kept
alone 36:16 00300513 @ plain flags = [0, 0, 0, 0] | nor makes it code compressed
alone 36:1 84ae 842a @ plain text = 84ae 842a | two moves
alone 36:1 84ae 842a @ zc text = ac26 | are one instruction
alone 36:1 84ae 00050413 @ zc text = ac26 | so are one of two bytes and one of four
alone 36:1 00a00433 84ae @ zc text = 842a 84ae | a sum with zero is no move
alone 36:1 1141 c626 c422 c206 @ zc text = b862 | a push
alone 36:1 40b2 0141 8082 @ zc text = be42 | a pop that returns
alone 36:1 a002 0000 0001 01751073 @ plain text = a002 0000 0001 1073 0175 | what is copied unread
alone 36:1 a002 0000 0001 01751073 @ zc text = a002 0000 0001 1073 0175
alone 36:1 b852 ac26 ac62 ba56 bc52 be52 @ plain text = b852 ac26 ac62 ba56 bc52 be52 | cm.push, cm.mvsa01, cm.mva01s, cm.pop, cm.popretz and cm.popret are copied
alone 36:1 b852 ac26 ac62 ba56 bc52 be52 @ zc text = b852 ac26 ac62 ba56 bc52 be52
alone 36:1 b852 ac26 ac62 ba56 bc52 be52 @ zc counts = 12 12 6 6 0 0 0 0 | and short ones, as no group is
alone 36:1 b852 84ae 842a 1141 c606 be52 @ zc text = b852 ac26 b842 be52 | moves and a push between them are
alone 36:1 b852 84ae 842a 1141 c606 be52 @ zc counts = 12 8 6 2 0 1 0 1
alone 36:1 40b2 be42 0141 8082 @ zc text = 40b2 be42 0141 8082 | a pop with one in it is none
alone 36:1 84ae ac62 842a @ zc text = 84ae ac62 842a | nor are two moves
alone 36:1 c101 00100513 be42 0:0:1:44:6 @ plain text = c119 0513 0010 be42 | c.beqz to cm.popret
alone 36:1 c101 00100513 be42 0:0:1:44:6 @ zc text = c111 4505 be42 | over fewer bytes
alone 36:1 0000 @ zc counts = 2 2 1 1 0 0 0 0 | it is a short one
alone 36:1 c111 4505 8082 @ plain text = c111 4505 8082 | c.beqz
alone 36:1 c111 4505 8082 @ zc text = c111 4505 8082
alone 36:1 a001 4505 8082 0:0:1:45:4 @ plain text = a011 4505 8082 | RVC_JUMP at c.j
alone 36:1 2001 4505 8082 0:0:1:45:4 @ plain text = 2011 4505 8082 | at c.jal
alone 36:1 c101 00100513 8082 0:0:1:44:6 @ plain text = c119 0513 0010 8082 | RVC_BRANCH at c.beqz
alone 36:1 c101 00100513 8082 0:0:1:44:6 @ zc text = c111 4505 8082 | over fewer bytes
alone 36:1 0000006f 4505 8082 0:0:1:17:6 @ plain text = 006f 0060 4505 8082 | a jal stays one
alone 36:1 0000006f 4505 8082 0:0:1:17:6 @ zc text = a011 4505 8082 | or becomes c.j
alone 36:1 4505 0000 0000 0000 00000073 0:2:0:43:6 @ plain text = 4505 0001 0013 0000 0073 0000 | padding begins with a halfword
alone 36:1 4505 0000 0000 0000 00000073 0:2:0:43:6 @ zc text = 4505 0001 0013 0000 0073 0000
alone 36:1 4505 0000 00000073 0:2:0:43:2 @ plain text = 4505 0001 0073 0000 | and may be one alone
alone 36:1 0000 00000073 0:0:0:43:2 @ plain text = 0073 0000 | or nothing
";

/// What the plain link copies, and the other link writes anew: a hint takes a word.
pub const HINTS: &str = "
alone 36:1 4015 0005 0502 6005 @ plain text = 4015 0005 0502 6005 | c.li to x0, c.nop of 1, c.slli of 0, c.lui to x0
alone 36:1 4015 0005 0502 6005 @ zc text = 0013 0050 0013 0010 1513 0005 1037 0000
alone 36:1 802e 902e @ plain text = 802e 902e | c.mv and c.add to x0
alone 36:1 802e 902e @ zc text = 8013 0005 8013 0005 | both add 0
alone 36:1 0501 @ plain text = 0501 | c.addi of 0
alone 36:1 0501 @ zc text = 852a | is a move
alone 36:1 717d @ plain text = 717d | c.addi16sp
alone 36:1 717d @ zc text = 1141 | c.addi, which comes first
alone 36:1 a001 1075134485*511 115*1 0:0:1:45:2046 @ settled 0:2046 = 4 4092 4096 1024 0 0 0 0 0 | c.j over hints that grow
alone 36:1 c101 1075134485*63 115*1 0:0:1:44:254 @ settled 0:254 = 4 508 512 128 0 0 0 0 0 | c.beqz over them
";

/// A compressed object together with one that isn't compressed.
pub const BOTH: &str = "
bare 36:1 384:2 00000097 000080e7 4505 /00150513 /00008067 0:0:9:18:0 @ plain text = 0097 0000 80e7 00c0 4505 0000 0513 0015 8067 0000 | the first
bare 36:1 384:2 00000097 000080e7 4505 /00150513 /00008067 0:0:9:18:0 @ plain places = 0:1:0:0 0:1:8:8 0:1:10:10 1:1:0:12 1:1:4:16 1:1:8:20
bare 36:1 384:2 00000097 000080e7 4505 /00150513 /00008067 0:0:9:18:0 @ plain flags = [1, 0, 0, 0]
bare 36:1 384:2 00000097 000080e7 4505 /00150513 /00008067 0:0:9:18:0 @ zc text = 2011 4505 0505 8082
bare 384:2 00000097 000080e7 00000073 /36:1 /0505 /8082 0:0:9:18:0 @ plain text = 0097 0000 80e7 00c0 0073 0000 0505 8082 | the second
bare 384:2 00000097 000080e7 00000073 /36:1 /0505 /8082 0:0:9:18:0 @ plain flags = [1, 0, 0, 0]
bare 384:2 00000097 000080e7 00000073 /36:1 /0505 /8082 0:0:9:18:0 @ zc text = 2019 0073 0000 0505 8082
bare 384:2 00000097 000080e7 00000073 /00150513 /00008067 0:0:9:18:0 @ plain flags = [0, 0, 0, 0] | neither
bare 384:2 00000097 000080e7 00000073 /00150513 /00008067 0:0:9:18:0 @ zc flags = [1, 0, 0, 0]
bare 36:1 384:2 2001 9002 /00150513 /00008067 0:0:9:45:0 @ plain text = 2011 9002 0513 0015 8067 0000 | RVC_JUMP from one into the other
bare 36:1 384:2 2001 9002 /00150513 /00008067 0:0:9:45:0 @ zc text = 2011 9002 0505 8082
";
