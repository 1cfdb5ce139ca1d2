// Rows of changes of the objects, each with a question about their cut and its answer.

/// The offset after the item at a place of an object's section, and the item.
pub const ITEMS: &str = "
@ item 0:1:0 = 4 Op Upper { op: Auipc, rd: Reg { number: 10 }, imm: 0 }
@ item 0:1:20 = 24 Branch Branch { op: Beq, first: Reg { number: 10 }, second: Reg { number: 11 }, distance: 0 } 0:1:20
@ item 0:1:24 = 28 Jump Jal { rd: Reg { number: 1 }, distance: 0 } 0:1:24
@ item 0:1:40 = 44 Op Ecall
@ item 0:1:2 = none
@ item 0:1:48 = none
@ item 0:3:0 = none
@ item 0:6:0 = none
@ item 2:1:0 = none
@ item 1:1:4 = 8 Op WithImm { op: Addi, rd: Reg { number: 10 }, first: Reg { number: 10 }, imm: 0 }
0:0:5:23:0 @ item 0:1:0 = 4 PcHi Upper { op: Auipc, rd: Reg { number: 10 }, imm: 0 } number 16
1:0:5:23:0 0:4:1:24:0 @ item 0:1:4 = 8 PcLo WithImm { op: Addi, rd: Reg { number: 10 }, first: Reg { number: 10 }, imm: 0 } 0:1:0
1:0:5:23:0 0:16:1:25:0 @ item 0:1:16 = 20 PcLo Store { op: Sw, source: Reg { number: 11 }, base: Reg { number: 10 }, imm: 0 } 0:1:0
0:8:5:26:0 @ item 0:1:8 = 12 Hi Upper { op: Lui, rd: Reg { number: 11 }, imm: 0 } number 16
0:8:1:26:20 @ item 0:1:8 = 12 Hi Upper { op: Lui, rd: Reg { number: 11 }, imm: 0 } code 0:1:20
0:12:5:27:0 @ item 0:1:12 = 16 Lo Load { op: Lw, rd: Reg { number: 11 }, base: Reg { number: 11 }, imm: 0 } number 16
0:16:5:28:4 @ item 0:1:16 = 20 Lo Store { op: Sw, source: Reg { number: 11 }, base: Reg { number: 10 }, imm: 0 } number 20
0:20:1:16:40 @ item 0:1:20 = 24 Branch Branch { op: Beq, first: Reg { number: 10 }, second: Reg { number: 11 }, distance: 0 } 0:1:40
0:20:9:16:0 @ item 0:1:20 = 24 Raw 11862115
0:24:3:17:4 @ item 0:1:24 = 28 Jump Jal { rd: Reg { number: 1 }, distance: 0 } 0:2:4
0:24:9:17:0 @ item 0:1:24 = 28 Raw 239
0:28:1:18:4 @ item 0:1:28 = 36 Call x1 x1 0:1:4
0:28:1:18:4 @ item 0:1:32 = none
0:28:9:19:0 @ item 0:1:28 = 36 RawPair 151 32999
0:40:4:1:2 @ item 0:1:40 = 44 Word number 1048578
0:40:9:1:2 @ item 0:1:40 = 44 Word absent 2
0:40:1:0:0 @ item 0:1:40 = 44 Op Ecall
8:0:0:43:4 @ item 0:5:0 = 4 Align 4
8:0:0:43:252 @ item 0:5:0 = 252 Align 252
8:0:0:43:252 @ item 0:5:4 = none
8:0:0:43:252 @ item 0:5:252 = 256 Raw 0
";

/// How many bytes of text and how many items there are, and how far places lie from the text's start; 528 is
/// the alignment of section 2.
pub const LAYOUTS: &str = "
@ lies 0:1:0 0:1:48 0:2:4 0:5:0 0:5:304 1:1:0 1:5:304 = 720 180 0 48 52 56 360 360 720
@ lies 0:1:2 0:3:0 0:6:0 0:5:308 2:1:0 = 720 180 none none none none none
528:0 @ lies 0:2:0 0:5:0 = 720 180 48 56
528:64 @ lies 0:1:48 0:2:0 0:2:8 0:5:0 1:1:0 1:5:304 = 736 180 48 64 72 72 376 736
8:0:0:43:12 @ lies 0:5:0 0:5:4 0:5:12 0:5:304 1:1:0 = 716 178 56 none 64 356 356
8:0:0:43:4 @ lies 0:5:0 0:5:4 0:5:304 1:1:0 = 716 180 56 56 356 356
8:0:0:43:252 @ lies 0:5:0 0:5:252 0:5:304 1:1:0 = 668 118 56 256 308 308
/8:0:0:43:124 @ lies 1:5:0 1:5:124 1:5:304 = 692 150 416 512 692
0:28:1:18:0 @ lies 0:1:28 0:1:32 0:1:36 = 720 179 28 none 36
";

/// The offsets of a section of the first object at which basic blocks begin; at 356, 364, 372 and 380 are the values
/// and the section indices of symbols 7 and 8.
pub const BLOCKS: &str = "
@ blocks 1 = 0 20 24 28 36 | at the start, at 20 and 24, which lead to themselves, and after these and a jalr
@ blocks 2 = 0 | at another start
@ blocks 3 = | not in data
@ blocks 6 = | nor in what is dropped
364:65537 @ blocks 1 = 0 20 24 28 36 | a local symbol that is no function
364:65538 @ blocks 1 = 0 8 20 24 28 36 | a local function
356:9 364:65538 @ blocks 1 = 0 9 20 24 28 36 | one in a word
356:48 364:65538 @ blocks 1 = 0 20 24 28 36 48 | one at the end
364:196610 @ blocks 3 = | one in data
364:4293984258 @ blocks 1 = 0 20 24 28 36 | one that is a number
372:40 @ blocks 1 = 0 20 24 28 36 40 | a global symbol
372:40 380:65568 @ blocks 1 = 0 20 24 28 36 40 | a weak one
0:20:1:16:40 @ blocks 1 = 0 24 28 36 40 | a branch
0:24:3:17:4 @ blocks 2 = 0 4 | a jump to another section
0:28:1:18:4 @ blocks 1 = 0 4 20 24 28 36 | a call
0:28:9:19:0 @ blocks 1 = 0 20 24 28 | one that goes nowhere
0:8:1:26:32 @ blocks 1 = 0 20 24 28 32 36 | an upper part
0:40:2:1:0 @ blocks 1 = 0 20 24 28 36 48 | a word that leads to the end
5:1:1:1:12 @ blocks 1 = 0 12 20 24 28 36 | a word of data
7:0:1:1:16 @ blocks 1 = 0 16 20 24 28 36 | one of zeros
/5:0:9:1:44 @ blocks 1 = 0 20 24 28 36 44 | one of another object
0:40:1:0:4 1:44:1:51:8 @ blocks 1 = 0 20 24 28 36 | NONE and RELAX ask for nothing
";

/// The words of data that hold addresses.
pub const DATA: &str = "
0:40:1:1:0 5:1:1:1:20 6:6:5:1:4 7:0:1:1:0 /5:0:9:1:20 /6:8:2:1:0 @ data = 100001 code 0:1:20 100006 number 20 10000c code 0:1:20 100014 code 1:1:48 | none of code or zeros
";

/// For `zc`: the size of what is written at an offset, how far another offset then is from the text's start, each 99
/// if it has no answer, and the counts: the text's bytes, items, short ones, long branches, pushes, pops and moves.
/// `nodes` asks for the nodes of the tree of sizes: how many there are, the first four, and the last.
pub const SETTLED: &str = "
alone 327779*1 19*126 115*1 0:0:1:16:508 @ settled 0:508 = 2 254 258 128 127 0 0 0 0 | a short branch just reaches
alone 327779*1 19*127 115*1 0:0:1:16:512 @ settled 0:512 = 4 258 262 129 127 0 0 0 0 | and doesn't
alone 111*1 19*1022 115*1 0:0:1:17:4092 @ settled 0:4092 = 2 2046 2050 1024 1023 0 0 0 0 | a short jump just reaches
alone 111*1 19*1023 115*1 0:0:1:17:4096 @ settled 0:4096 = 4 2050 2054 1025 1023 0 0 0 0 | and doesn't
alone 19*1024 111*1 115*1 0:4096:1:17:0 @ settled 4096:0 = 2 0 2054 1026 1025 0 0 0 0 | back
alone 19*1025 111*1 115*1 0:4100:1:17:0 @ settled 4100:0 = 4 0 2058 1027 1025 0 0 0 0 | too far back
alone 327779*1 111*1 19*1022 115*1 0:0:1:16:508 1:4:1:17:4096 @ settled 0:508 = 2 254 2052 1025 1024 0 0 0 0 | a branch over a short jump
alone 327779*1 111*1 19*1023 115*1 0:0:1:16:508 1:4:1:17:4100 @ settled 0:508 = 4 258 2058 1026 1023 0 0 0 0 | the jump grows and pushes the branch
alone 327779*1 111*1 19*1023 115*1 0:0:1:16:508 1:4:1:17:4100 @ settled 4:4100 = 4 2054 2058 1026 1023 0 0 0 0 | to here
alone 327779*1 111*1 19*1023 115*1 0:0:1:16:508 1:4:1:17:4100 @ settled nodes = 1028 0 0 4 8 10 | sizes are 0, 0, 4, 4, then 2s, and 4
alone 327779*1 111*1 19*1023 115*1 0:0:1:16:508 1:4:1:17:4100 @ zc start = 0163 1005 006f 0030 | both are words
alone 19*2 11862115*1 97862931*1 19*3 97862931*1021 115*1 0:8:1:16:4112 1:16:0:43:12 @ settled 8:4112 = 8 4100 4104 1027 2 1 0 0 0 | padding pushes a branch to 8 bytes
alone 4278255891*1 8463907*1 1123363*1 8462467*1 12657667*1 16843027*1 32871*1 115*1 19*4 @ settled 0:12 = 2 2 16 12 4 0 1 1 0 | a push, and a pop that returns
alone 4278255891*1 8463907*1 1123363*1 8462467*1 12657667*1 16843027*1 32871*1 115*1 19*4 @ settled 4:8 = 99 99 16 12 4 0 1 1 0 | nothing is written inside a push
alone 4278255891*1 8463907*1 1123363*1 8462467*1 12657667*1 16843027*1 32871*1 115*1 19*4 @ settled 12:28 = 2 4 16 12 4 0 1 1 0 | what follows lies behind the pop
alone 4211147027*1 75572771*1 68232227*1 115*1 19*8 @ settled 0:12 = 4 4 24 12 8 0 1 0 0 | 80 bytes take a short addition too
alone 2164326675*1 2122393123*1 2115052579*1 115*1 19*8 @ settled 0:12 = 6 6 26 12 8 0 1 0 0 | and 2032 a long one
alone 75571331*1 79766531*1 83951891*1 32871*1 115*1 19*7 @ settled 0:16 = 4 4 22 12 7 0 0 1 0 | so with a pop
alone 328723*1 361619*1 115*1 19*9 @ settled 0:8 = 2 2 24 12 9 0 0 0 1 | two moves
alone 4278255891*1 8463907*1 1123363*1 327779*1 115*1 19*7 0:12:1:16:4 @ settled 0:4 = 2 2 26 12 11 0 0 0 0 | no group where a branch leads into one
";
