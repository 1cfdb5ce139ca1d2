// Rows of objects with sections that stay as they were compiled. The name of section 1 is at 456 in a file, that of 2 at
// 496, and of 3, which is data, at 536: 8 makes it `weak`. The word 1801530999 at 408 makes of that `w.ak`.

/// Branches and jumps that leave such a section, or don't.
pub const LEAVING: &str = "
456:8 0:20:3:16:0 = linked | without names
456:8 0:20:3:16:0 !weak = 0 Range 1:20 | a branch into another section
456:8 0:20:3:16:0 !start = linked | a name that it hasn't
456:8 0:20:7:16:0 !weak = linked | a branch in its own section
456:8 0:20:2:16:0 !weak = linked | to its end
456:8 /0:20:3:16:0 !weak = linked | in an object without the name
/456:8 /0:20:3:16:0 !weak = 1 Range 1:20 | in the second object
496:8 0:20:3:16:0 !weak = linked | into a fixed section
456:8 496:8 0:20:3:16:0 !weak = 0 Range 1:20 | from one into another
456:8 0:24:3:17:0 !weak = linked | jal
456:8 76:111 0:24:3:17:0 !weak = linked | a jump of four bytes
456:8 0:28:3:18:0 !weak = linked | a call
456:8 0:0:3:23:0 1:4:1:24:0 !weak = linked | an address
536:8 0:20:3:16:0 !weak = linked | data with the name
456:8 408:1801530999 0:20:3:16:0 !w.ak = 0 Range 1:20 | all of the name
456:8 408:1801530999 0:20:3:16:0 !w = 0 Range 1:20 | what stands before its dot
456:8 408:1801530999 0:20:3:16:0 !w. = linked | with the dot
456:8 408:1801530999 0:20:3:16:0 !w.a = linked | a letter less
456:8 0:20:3:16:0 !wea = linked | a letter less, without a dot
456:8 0:20:3:16:0 !start,weak = 0 Range 1:20 | the second of two names
36:1 456:8 72:114945 0:20:3:44:0 = linked | c.beqz without names
36:1 456:8 72:114945 0:20:3:44:0 !weak = 0 Range 1:20 | c.beqz
36:1 456:8 72:114945 0:20:7:44:0 !weak = linked | in its own section
36:1 456:8 72:106497 0:20:3:45:0 = linked | c.j without names
36:1 456:8 72:106497 0:20:3:45:0 !weak = 0 Range 1:20 | c.j
36:1 456:8 72:106497 0:20:7:45:0 !weak = linked | in its own section
36:1 496:8 72:106497 0:20:3:45:0 !weak = linked | into a fixed section
";

/// What the link that makes code smaller writes of such a section: instructions keep their sizes and distances, and a
/// short one its halfword.
pub const KEPT: &str = "
alone 456:8 00150513 00a58593 @ zc text = 0505 05a9 | without names
alone 456:8 00150513 00a58593 !weak @ zc text = 0513 0015 8593 00a5
alone 456:8 00150513 00a58593 !weak @ zc counts = 8 8 2 0 0 0 0 0
alone 456:8 ff010113 00912623 00812423 00112223 !weak @ zc text = 0113 ff01 2623 0091 2423 0081 2223 0011 | no push
alone 456:8 ff010113 00912623 00812423 00112223 !weak @ zc places = 0:1:0:0 0:1:4:4 0:1:8:8 0:1:12:12 0:1:16:16
alone 456:8 00c12083 01010113 00008067 !weak @ zc text = 2083 00c1 0113 0101 8067 0000 | no pop
alone 36:1 456:8 84ae 842a !weak @ zc text = 84ae 842a | no pair of moves
alone 36:1 456:8 4015 0501 717d !weak @ zc text = 4015 0501 717d | hints, and c.addi16sp
alone 36:1 456:8 717d @ zc text = 1141 | without names
alone 36:1 456:8 4505 00150513 !weak @ zc counts = 6 6 2 1 0 0 0 0
alone 36:1 456:8 c101 00100513 8082 0:0:1:44:6 !weak @ zc text = c119 0513 0010 8082 | c.beqz over four bytes
alone 36:1 456:8 0000006f 4505 8082 0:0:1:17:6 !weak @ zc text = 006f 0060 4505 8082 | a jal doesn't become c.j
alone 456:8 0000006f 00000013 0:0:1:17:4 !weak @ zc text = 006f 0040 0013 0000
alone 456:8 00000097 000080e7 00000013 0:0:1:18:8 !weak @ zc text = 0097 0000 80e7 0080 0013 0000 | a call
alone 36:1 456:8 4505 0000 0000 0000 00000073 0:2:0:43:6 !weak @ zc text = 4505 0001 0013 0000 0073 0000 | an ALIGN
bare 36:1 4505 /36:1 /488:2 /456:8 /0505 @ zc text = 4505 0505 | without names
bare 36:1 4505 /36:1 /488:2 /456:8 /0505 !weak @ zc text = 4505 0000 0505 | it begins at a multiple of 4
bare 36:1 488:2 456:8 4505 /36:1 /488:2 /0505 !weak @ zc text = 4505 0505 | the next needn't
";
