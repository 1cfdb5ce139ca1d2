// Rows of relocations and other changes of the objects, each with its fault.

/// Types.
pub const KINDS: &str = "
0:0:0:51:0 1:2:6:0:0 = linked | NONE and RELAX ask for nothing
0:40:1:1:0 = linked | 32 in code
0:40:1:2:0 = 0 RelocKind 1:40 | 64
0:40:1:20:0 = 0 RelocKind 1:40 | GOT_HI20
0:40:1:22:0 = 0 RelocKind 1:40 | TLS_GD_HI20
0:40:1:44:0 = 0 RelocKind 1:40 | RVC_BRANCH
0:40:1:45:0 = 0 RelocKind 1:40 | RVC_JUMP
0:40:1:52:0 = 0 RelocKind 1:40 | SUB6
0:40:1:255:0 = 0 RelocKind 1:40 | the last type
5:1:1:1:0 = linked | 32 in data
7:0:1:1:0 = linked | 32 in zeros
5:0:0:51:0 6:0:0:0:0 = linked | NONE and RELAX in data
5:0:5:26:0 = 0 RelocKind 3:0 | HI20 in data
5:0:1:35:0 = 0 RelocKind 3:0 | ADD32 in data
5:0:0:43:4 = 0 RelocKind 3:0 | ALIGN in data
7:4:1:18:0 = 0 RelocKind 4:4 | CALL in zeros
";

/// Fields.
pub const FIELDS: &str = "
0:20:1:16:0 1:24:1:17:0 2:28:1:18:0 = linked | BRANCH, JAL and CALL
2:28:1:19:0 = linked | CALL_PLT
0:0:5:23:0 1:8:5:26:0 = linked | PCREL_HI20 and HI20
0:12:5:27:0 1:16:5:28:0 = linked | LO12_I at a load and LO12_S
0:4:5:27:0 1:32:5:27:0 = linked | LO12_I at addi and jalr
0:24:1:16:0 = 0 RelocPlace 1:24 | BRANCH at a jal
0:20:1:17:0 = 0 RelocPlace 1:20 | JAL at a branch
0:0:1:18:0 = 0 RelocPlace 1:0 | CALL without a jalr
0:8:1:18:0 = 0 RelocPlace 1:8 | CALL at a lui
0:8:5:23:0 = 0 RelocPlace 1:8 | PCREL_HI20 at a lui
0:0:5:26:0 = 0 RelocPlace 1:0 | HI20 at an auipc
0:16:5:27:0 = 0 RelocPlace 1:16 | LO12_I at a store
0:12:5:28:0 = 0 RelocPlace 1:12 | LO12_S at a load
0:40:5:27:0 = 0 RelocPlace 1:40 | LO12_I at an ecall
0:2:1:1:0 = 0 RelocPlace 1:2 | no multiple of 4
0:44:1:1:0 = linked | to the end of code
0:48:1:1:0 = 0 RelocPlace 1:48 | at the end of code
0:44:1:18:0 = 0 RelocPlace 1:44 | CALL past the end
0:4294967292:1:1:0 = 0 RelocPlace 1:4294967292 | far out
5:8:1:1:0 = linked | to the end of data
5:9:1:1:0 = 0 RelocPlace 3:9 | past the end of data
7:5:1:1:0 = 0 RelocPlace 4:5 | past the end of zeros
0:0:5:23:0 1:0:5:23:0 = 0 RelocPlace 1:0 | two equal ones
0:8:5:26:0 1:8:4:26:0 = 0 RelocPlace 1:8 | two HI20 at one lui
1:0:5:23:0 0:4:5:27:0 = linked | next to each other
5:0:1:1:0 6:3:1:1:0 = 0 RelocPlace 3:0 | one byte, at the earlier place
5:3:1:1:0 6:0:1:1:0 = 0 RelocPlace 3:3 | one byte, at the later place
0:32:5:27:0 1:28:1:18:0 = 0 RelocPlace 1:32 | the second word of a CALL
0:28:1:18:0 1:32:5:27:0 = 0 RelocPlace 1:28 | the same at the CALL
0:40:1:1:0 1:40:0:51:0 2:40:0:0:0 = linked | NONE and RELAX have no field
0:40:1:1:0 1:40:0:2:0 = 0 RelocKind 1:40 | a type that isn't known has none
0:40:1:1:0 1:42:0:45:0 = 0 RelocPlace 1:40 | RVC_JUMP has two bytes, and can't stand here itself
0:42:0:45:0 1:40:1:1:0 = 0 RelocKind 1:42 | the same where RVC_JUMP comes first
0:40:1:1:0 1:44:0:44:0 = 0 RelocKind 1:44 | RVC_BRANCH next to a word
5:0:1:1:0 6:0:5:26:0 = 0 RelocPlace 3:0 | one that can't stand here has a field
8:0:0:43:4 = linked | the least ALIGN
8:52:0:43:252 = linked | the greatest ALIGN, to the end
8:0:0:43:255 = 0 RelocPlace 5:0 | ALIGN of 255
8:0:0:43:256 = 0 RelocPlace 5:0 | ALIGN of 256
8:0:0:43:0 = 0 RelocPlace 5:0 | ALIGN of 0
8:0:0:43:-4 = 0 RelocPlace 5:0 | ALIGN of -4
8:0:0:43:6 = 0 RelocPlace 5:0 | ALIGN of 6
8:2:0:43:4 = 0 RelocPlace 5:2 | ALIGN at no multiple of 4
8:300:0:43:4 = linked | ALIGN to the end
8:300:0:43:8 = 0 RelocPlace 5:300 | ALIGN past the end
8:0:0:43:8 9:8:1:1:0 = linked | after an ALIGN
8:8:1:1:0 9:4:0:43:8 = 0 RelocPlace 5:8 | in an ALIGN
8:8:1:1:0 9:4:0:43:2147483644 = 0 RelocPlace 5:8 | in an ALIGN that is too long
8:8:1:1:0 9:8:0:43:0 = 0 RelocPlace 5:8 | at an ALIGN without bytes
8:8:1:1:0 9:4:0:43:0 = 0 RelocPlace 5:4 | after an ALIGN without bytes
";

/// PC-relative pairs.
pub const PAIRS: &str = "
0:4:1:24:0 1:0:5:23:0 = linked | an addi
0:12:1:24:0 1:0:5:23:0 = linked | a load
0:16:1:25:0 1:0:5:23:0 = linked | a store
0:4:1:24:0 1:16:8:25:0 2:0:5:23:0 = linked | two lower parts, one by a global name
0:4:1:24:0 = 0 LoPair 1:4 | no relocation at the auipc
0:4:1:24:0 1:0:0:51:0 = 0 LoPair 1:4 | RELAX at the auipc
0:4:1:24:0 1:28:5:23:0 = 0 LoPair 1:4 | an upper part elsewhere
0:4:1:24:4 1:0:5:23:0 = 0 LoPair 1:4 | an addend
0:4:1:24:-4 1:0:5:23:0 = 0 LoPair 1:4 | an addend below 0
0:4:2:24:0 1:0:5:23:0 = 0 LoPair 1:4 | the section's end
0:4:3:24:0 4:0:5:23:0 = 0 LoPair 1:4 | an upper part of another section
/0:4:9:24:0 /1:0:5:23:0 0:0:5:23:0 = 1 LoPair 1:4 | an upper part of another object
0:4:4:24:0 1:0:5:23:0 = 0 LoPair 1:4 | data
0:4:5:24:0 1:0:5:23:0 = 0 LoPair 1:4 | a number
0:4:6:24:0 1:0:5:23:0 = 0 LoPair 1:4 | nowhere
0:4:9:24:0 1:0:5:23:0 = 0 LoPair 1:4 | weak and undefined
0:12:7:24:0 1:8:5:23:0 = 0 LoPair 1:12 | PCREL_HI20 at a lui
0:4:1:24:0 1:0:5:23:0 2:0:5:23:0 = 0 RelocPlace 1:0 | an upper part with a fault is one
0:12:7:27:4 = linked | LO12_I goes alone
";

/// Targets.
pub const TARGETS: &str = "
0:24:1:17:48 = linked | the end
0:24:2:17:-8 = linked | a word
0:24:3:17:4 = linked | another section
0:24:1:17:2 = 0 BadTarget 1:24 | within a word
0:24:1:17:49 = 0 BadTarget 1:24 | past the end
0:24:1:17:-4 = 0 BadTarget 1:24 | before the start
0:24:1:17:32 = linked | a jalr that stands alone
0:24:1:17:32 1:28:1:18:0 = 0 BadTarget 1:24 | the second word of a CALL
5:0:1:1:32 1:28:1:18:0 = 0 BadTarget 3:0 | the same from data
0:24:6:17:0 = 0 BadTarget 1:24 | a section that is dropped
5:0:6:1:0 = 0 BadTarget 3:0 | the same from data
0:8:6:26:0 = 0 BadTarget 1:8 | HI20 of the same
0:24:5:17:0 = 0 BadTarget 1:24 | JAL to a number
0:24:4:17:0 = 0 BadTarget 1:24 | JAL to data
0:24:0:17:0 = 0 BadTarget 1:24 | JAL without a symbol
0:20:5:16:0 = 0 BadTarget 1:20 | BRANCH to a number
0:28:5:18:0 = 0 BadTarget 1:28 | CALL of a number
0:28:5:19:0 = 0 BadTarget 1:28 | CALL_PLT of a number
0:24:9:17:0 1:20:9:16:0 2:28:9:18:0 = linked | weak and undefined
0:8:4:26:1 5:0:5:1:3 = linked | HI20 and 32 of numbers
0:8:9:26:0 5:0:9:1:3 = linked | HI20 and 32, weak and undefined
0:8:1:26:2 = 0 BadTarget 1:8 | HI20 of a place within a word
5:0:1:1:2 = 0 BadTarget 3:0 | 32 of a place within a word
8:0:6:43:4 = 0 BadTarget 5:0 | ALIGN with a symbol
0:0:6:51:0 1:0:6:0:0 = linked | RELAX and NONE lead nowhere
8:8:0:43:8 0:24:1:17:0 5:0:1:1:0 = linked | ALIGN without a symbol
";

/// Which fault comes first.
pub const ORDER: &str = "
0:2:6:2:0 = 0 RelocKind 1:2 | 11 before 12 and 14
5:11:6:26:0 = 0 RelocKind 3:11 | the same in data
0:6:1:24:4 = 0 RelocPlace 1:6 | 12 before 13
0:26:6:17:0 = 0 RelocPlace 1:26 | 12 before 14
0:4:6:24:0 = 0 LoPair 1:4 | 13 before 14
0:24:6:17:0 1:40:1:2:0 = 0 BadTarget 1:24 | by the order of entries
0:40:1:2:0 1:24:6:17:0 = 0 RelocKind 1:40 | by the order of entries
2:44:6:1:0 1:12:1:24:0 = 0 LoPair 1:12 | by the order of entries
4:0:5:26:0 5:0:1:2:0 = 0 RelocPlace 2:0 | by section
4:0:5:26:0 0:24:6:17:0 = 0 BadTarget 1:24 | by section
/0:40:1:2:0 = 1 RelocKind 1:40 | in the second object
/0:40:1:2:0 8:0:6:43:4 = 0 BadTarget 5:0 | by object
/5:0:1:1:48 /0:24:1:17:4 = linked | in the second object
/5:0:1:1:2 = 1 BadTarget 3:0 | in the second object
/0:24:9:17:2 = 1 BadTarget 1:24 | from one into the other
/0:24:9:17:48 = linked | from one into the other
/0:24:9:17:32 0:28:1:18:0 = 1 BadTarget 1:24 | from one into the other
/0:24:9:17:32 /1:28:1:18:0 = linked | from one into the other
";

/// Where the program starts, and how far branches reach: at 372 and 380 are the value and the section index of
/// `_start`, and at 636 is the size of section 5, for which the file gets 4,096 bytes more.
pub const REACHES: &str = "
= linked | as they are
372:2 = 0 NoEntry | it starts in a word
372:48 = 0 NoEntry | at the end of code
380:196624 = 0 NoEntry | in data
380:393232 = 0 NoEntry | in what is dropped
380:4293984272 = 0 NoEntry | at a number
0:28:1:18:0 372:28 = linked | at a CALL
0:28:1:18:0 372:32 = 0 NoEntry | in a CALL
0:40:1:2:0 372:2 = 0 RelocKind 1:40 | relocations come first
/0:20:9:16:0 636:4020 0*1024 = linked | a branch that just reaches
/0:20:9:16:0 636:4024 0*1024 = 1 Range 1:20 | one that doesn't
/0:20:9:16:0 8:0:0:43:4 636:4024 0*1024 = linked | padding that takes no room
/0:20:9:16:0 8:0:0:43:4 636:4028 0*1024 = 1 Range 1:20 | the same, too far
/0:24:9:17:0 636:4024 0*1024 = linked | a jal reaches farther
";
