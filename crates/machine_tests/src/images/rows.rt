// Tables of programs. Words, bytes, addresses, pc and a0 are hexadecimal.

/// Each row: three instructions, as LLVM's assembler writes them, and how a run of them ends, as in `PROGRAMS`. Text begins
/// at 0x10000, and sp is 0x10000000 at first.
pub const HALFWORDS: &str = "
0001 0001 0808 | ends spent 10006 10000010 | c.nop; c.nop; c.addi4spn a0,sp,16
FF010593 C1CC 41C8 | ends spent 10008 ffffff0 | addi a1,sp,-16; c.sw a1,4(a1); c.lw a0,4(a1)
FF010593 C18C 81C8 | ends spent 10008 ff | addi a1,sp,-16; c.sw a1,0(a1); c.lbu a0,1(a1)
FF010593 C18C 85A8 | ends spent 10008 fff | addi a1,sp,-16; c.sw a1,0(a1); c.lhu a0,2(a1)
FF010593 C18C 85C8 | ends spent 10008 fffffff0 | addi a1,sp,-16; c.sw a1,0(a1); c.lh a0,0(a1)
FF010593 89EC 4188 | ends spent 10008 f0000000 | addi a1,sp,-16; c.sb a1,3(a1); c.lw a0,0(a1)
FF010593 8DAC 4188 | ends spent 10008 fff00000 | addi a1,sp,-16; c.sh a1,2(a1); c.lw a0,0(a1)
4515 1565 0001 | ends spent 10006 fffffffe | c.li a0,5; c.addi a0,-7; c.nop
2011 8506 9082 | ends spent 10004 10006 | c.jal .+4; c.mv a0,ra; c.jalr ra
2011 0001 8506 0001 | ends spent 10008 10002 | c.jal .+4; c.nop; c.mv a0,ra; c.nop
7139 850A 0001 | ends spent 10006 fffffc0 | c.addi16sp sp,-64; c.mv a0,sp; c.nop
7501 0001 0001 | ends spent 10006 fffe0000 | c.lui a0,0xfffe0; c.nop; c.nop
557D 8171 0001 | ends spent 10006 f | c.li a0,-1; c.srli a0,28; c.nop
5541 8509 0001 | ends spent 10006 fffffffc | c.li a0,-16; c.srai a0,2; c.nop
557D 9941 0001 | ends spent 10006 fffffff0 | c.li a0,-1; c.andi a0,-16; c.nop
4515 459D 8D0D | ends spent 10006 fffffffe | c.li a0,5; c.li a1,7; c.sub a0,a1
4515 4599 8D2D | ends spent 10006 3 | c.li a0,5; c.li a1,6; c.xor a0,a1
4515 4599 8D4D | ends spent 10006 7 | c.li a0,5; c.li a1,6; c.or a0,a1
4515 4599 8D6D | ends spent 10006 4 | c.li a0,5; c.li a1,6; c.and a0,a1
4515 4599 9D4D | ends spent 10006 1e | c.li a0,5; c.li a1,6; c.mul a0,a1
557D 9D61 0001 | ends spent 10006 ff | c.li a0,-1; c.zext.b a0; c.nop
4515 9D75 0001 | ends spent 10006 fffffffa | c.li a0,5; c.not a0; c.nop
A011 0001 4505 0001 | ends spent 10008 1 | c.j .+4; c.nop; c.li a0,1; c.nop
C111 0001 4505 0001 | ends spent 10008 1 | c.beqz a0,.+4; c.nop; c.li a0,1; c.nop
E111 4509 E111 | ends spent 10008 2 | c.bnez a0,.+4; c.li a0,2; c.bnez a0,.+4
450D 057A 0001 | ends spent 10006 c0000000 | c.li a0,3; c.slli a0,30; c.nop
1141 C60A 4532 | ends spent 10006 ffffff0 | c.addi sp,-16; c.swsp sp,12(sp); c.lwsp a0,12(sp)
2011 4525 8082 | ends spent 10004 9 | c.jal .+4; c.li a0,9; c.jr ra
4515 459D 952E | ends spent 10006 c | c.li a0,5; c.li a1,7; c.add a0,a1";

/// Each program, its input, the most commits that it may make, and which call of the console fails; the bytes of the
/// output and of the output for errors; and how its run ends, with pc and a0.
pub const PROGRAMS: &str = "
# sp starts at 0x10000000: addi sp,sp,-16; sw sp,12(sp); lbu a0,13(sp), lb a0,13(sp) or lhu a0,14(sp)
FF010113 00212623 00D14503 | steps 3 | ends spent 1000c ff
FF010113 00212623 00D10503 | steps 3 | ends spent 1000c ffffffff
FF010113 00212623 00E15503 | steps 3 | ends spent 1000c fff
# auipc a0,0; jalr a0,9(a0), to the zeros at 0x10008
00000517 00950567 00000000 | ends stopped 1 Illegal 10008 10008
# lui a0,0xFFFFF; beq x0,x0,4; ebreak
FFFFF537 00000263 00100073 | ends stopped 4 Break 10008 fffff000
# addi a0,x0,5; div a0,a0,x0; lh a1,-1(sp)
00500513 02054533 FFF11583 | ends stopped 3 Misaligned 10008 ffffffff
# jal a0,4; lw a1,0(sp), past the stack; fence
0040056F 00012583 0FF0000F | ends stopped 2 BadAccess 10004 10004
# lui t1,0x12345; addi t1,t1,0x6FF; csrrw x0,jvt,t1; csrrw a0,jvt,x0: jvt's low six bits are 0
12345337 6FF30313 01731073 01701573 | steps 4 | ends spent 10010 123456c0
# lui t1,0x10; csrrw x0,jvt,t1; cm.jt 4, whose entry ends where the code does; c.nop
00010337 01731073 A012 0001 00000000 0001000B | steps 3 | ends spent 1000a 0
# the same with cm.jt 5, whose entry comes after that
00010337 01731073 A016 0001 00000000 0001000B | steps 3 | ends stopped 2 BadAccess 10008 0
# addi t1,x0,-64; csrrw x0,jvt,t1; cm.jt 16, whose entry is at 0
FC000313 01731073 A042 | steps 3 | ends stopped 2 BadAccess 10008 0
# addi x0,sp,0, which is an entry too; lui t1,0x10; addi t1,t1,-128; csrrw x0,jvt,t1; cm.jalt 32; c.mv a0,ra
00010013 00010337 F8030313 01731073 A082 8506 | steps 6 | ends spent 10014 10012
# c.li a0,4; c.nop; c.ebreak
4511 0001 9002 | ends stopped 4 Break 10004 4
# c.li a0,3; addi a7,x0,93; ecall, for so many commits
450D 05D00893 00000073 | steps 1000 | ends exited 3 10006 3
450D 05D00893 00000073 | steps 3 | ends exited 3 10006 3
450D 05D00893 00000073 | steps 2 | ends spent 10006 3
450D 05D00893 00000073 | steps 0 | ends spent 10000 0
# addi x0,x0,5; addi a7,x0,93; ecall
00500013 05D00893 00000073 | ends exited 0 10008 0
# ecall, with no call's number
00000073 | ends stopped 5 UnknownCall 10000 0
# or a0,a0,x1, and the same of x3 to x31: all are 0 at the start
00156533 00356533 00456533 00556533 00656533 00756533 00856533 00956533 00A56533 00B56533 00C56533 00D56533 00E56533 00F56533 01056533 01156533 01256533 01356533 01456533 01556533 01656533 01756533 01856533 01956533 01A56533 01B56533 01C56533 01D56533 01E56533 01F56533 | steps 30 | ends spent 10078 0
# c.li a0,3; a halfword that spells nothing
450D 0000 | ends stopped 1 Illegal 10002 3
# c.li a0,3, and the end of the text
450D | ends stopped 2 BadAccess 10002 3
# the same with half a word after it
450D 0893 | ends stopped 2 BadAccess 10002 3
# addi a7,x0,63; addi a2,x0,4; ecall: no memory is at 0
03F00893 00400613 00000073 | ends stopped 2 BadAccess 10008 0
# addi a7,x0,64; addi a0,x0,3; ecall: no stream has the number 3
04000893 00300513 00000073 | ends stopped 5 UnknownCall 10008 3
# addi a7,x0,63; ecall; ebreak: a read of no bytes
03F00893 00000073 00100073 | ends stopped 4 Break 10008 0
# c.li a0,1; addi a7,x0,64; ecall; c.ebreak: a write of no bytes
4505 04000893 00000073 9002 | ends stopped 4 Break 1000a 0
# addi a7,x0,63; addi a1,sp,-16; addi a2,x0,8; ecall; addi a2,a0,0; addi a0,x0,1 (or 2, or 3); addi a7,x0,64; ecall; addi a7,x0,93; ecall
03F00893 FF010593 00800613 00000073 00050613 00100513 04000893 00000073 05D00893 00000073 | in 68 69 | out 68 69 | ends exited 2 10024 2
03F00893 FF010593 00800613 00000073 00050613 00200513 04000893 00000073 05D00893 00000073 | in 68 69 | err 68 69 | ends exited 2 10024 2
03F00893 FF010593 00800613 00000073 00050613 00100513 04000893 00000073 05D00893 00000073 | in 31 32 33 34 35 36 37 38 39 | out 31 32 33 34 35 36 37 38 | ends exited 8 10024 8
03F00893 FF010593 00800613 00000073 00050613 00100513 04000893 00000073 05D00893 00000073 | ends exited 0 10024 0
03F00893 FF010593 00800613 00000073 00050613 00300513 04000893 00000073 05D00893 00000073 | in 68 69 | ends stopped 5 UnknownCall 1001c 3
# two bytes are read, two more after them, and all four are written: addi a7,x0,63; addi a1,sp,-16; addi a2,x0,2; ecall; addi a1,a1,2; addi a0,x0,0; ecall; addi a1,a1,-2; addi a2,x0,4; addi a0,x0,1; addi a7,x0,64; ecall; addi a7,x0,93; ecall
03F00893 FF010593 00200613 00000073 00258593 00000513 00000073 FFE58593 00400613 00100513 04000893 00000073 05D00893 00000073 | in 61 62 63 64 65 66 | out 61 62 63 64 | ends exited 4 10034 4
# five bytes are read to 0x0FFFEFFE, and written in two pieces, the first up to the page's end: lui a1,0xFFFF; addi a1,a1,-2; addi a2,x0,5; addi a7,x0,63; ecall; addi a0,x0,1; addi a7,x0,64; ecall; addi a7,x0,93; ecall
0FFFF5B7 FFE58593 00500613 03F00893 00000073 00100513 04000893 00000073 05D00893 00000073 | in 61 62 63 64 65 | out 61 62 63 64 65 | ends exited 5 10024 5
# the same over a console whose second call fails, or whose first
0FFFF5B7 FFE58593 00500613 03F00893 00000073 00100513 04000893 00000073 05D00893 00000073 | in 61 62 63 64 65 | fails 1 | out 61 62 | ends fault 1001c 1
0FFFF5B7 FFE58593 00500613 03F00893 00000073 00100513 04000893 00000073 05D00893 00000073 | in 61 62 63 64 65 | fails 0 | ends fault 1001c 1";

/// Programs as in `PROGRAMS`, with segments of data.
pub const PAGES: &str = "
# four bytes over a page's end are written: lui a1,0x101; addi a1,a1,-2; addi a2,x0,4; addi a0,x0,1; addi a7,x0,64; ecall; addi a7,x0,93; ecall
001015B7 FFE58593 00400613 00100513 04000893 00000073 05D00893 00000073 | data 00100000 00002000 0FFE 61 62 63 64; | out 61 62 63 64 | ends exited 4 1001c 4
# a push and a pop over a page's end: lui sp,0xFFFF; addi sp,sp,8; c.li s0,9; c.li s1,7; cm.push {ra, s0-s4}, -48; c.li s0,0; c.li s1,0; cm.pop {ra, s0-s4}, 48; c.mv a0,s0; c.add a0,s1
0FFFF137 00810113 4425 449D B896 4401 4481 BA96 8522 9526 | steps 10 | ends spent 10018 10
# words are stored before and after a page's end in turn: lui a1,0x101; addi t1,x0,1; sw t1,-4(a1); addi t1,x0,2; sw t1,0(a1); addi t1,x0,3; sw t1,-8(a1); addi t1,x0,4; sw t1,4(a1); addi a1,a1,-8; addi a2,x0,16; addi a0,x0,1; addi a7,x0,64; ecall; addi a7,x0,93; ecall
001015B7 00100313 FE65AE23 00200313 0065A023 00300313 FE65AC23 00400313 0065A223 FF858593 01000613 00100513 04000893 00000073 05D00893 00000073 | data 00100000 00002000 0; | out 03 00 00 00 01 00 00 00 02 00 00 00 04 00 00 00 | ends exited 16 1003c 10
# a word is stored in a page of zeros, and loaded from there, from the next page, or from the stack: lui a1,0x100; addi t1,x0,1; sw t1,0(a1); lui a1,0x100 (or 0x101, or 0xFF00); lw a0,0(a1)
001005B7 00100313 0065A023 001005B7 0005A503 | data 00100000 00002000 0; | steps 5 | ends spent 10014 1
001005B7 00100313 0065A023 001015B7 0005A503 | data 00100000 00002000 0; | steps 5 | ends spent 10014 0
001005B7 00100313 0065A023 0FF005B7 0005A503 | data 00100000 00002000 0; | steps 5 | ends spent 10014 0
# a word is stored in each page of four: lui a1,0x100; lui a2,0x104; lui t1,1; sw a1,0(a1); add a1,a1,t1; bne a1,a2,-8; lui a1,0x103; lw a0,0(a1)
001005B7 00104637 00001337 00B5A023 006585B3 FEC59CE3 001035B7 0005A503 | data 00100000 00004000 0; | steps 17 | ends spent 10020 103000
# the byte at the start of the last of 16 segments is loaded: lui a1,0x11C; lbu a0,0(a1)
0011C5B7 0005C503 | data 00100000 00000010 0 01; 00102000 00000010 0 02; 00104000 00000010 0 03; 00106000 00000010 0 04; 00108000 00000010 0 05; 0010A000 00000010 0 06; 0010C000 00000010 0 07; 0010E000 00000010 0 08; 00110000 00000010 0 09; 00112000 00000010 0 0A; 00114000 00000010 0 0B; 00116000 00000010 0 0C; 00118000 00000010 0 0D; 0011A000 00000010 0 0E; 0011C000 00000010 0 0F; | steps 2 | ends spent 10008 f";

/// Programs as in `PAGES`, whose instructions are executed again while others are close to them in memory.
pub const AGAIN: &str = "
# a word and the halfword in its middle, in turn: addi t0,x0,4; lui a1,0x5050, with c.addi a0,1 in its middle; c.add a0,a1; c.li a1,0; addi t0,t0,-1; beq t0,x0,.+16; andi t1,t0,1; beq t1,x0,.-20, to the word; jal x0,.-22, to its middle; c.ebreak
00400293 050505B7 952E 4581 FFF28293 00028863 0012F313 FE0306E3 FEBFF06F 9002 | ends stopped 4 Break 10020 a0a0002
# a loop up to the end of the text: addi t0,x0,3; c.addi a0,2; addi t0,t0,-1; bne t0,x0,.-6
00300293 0509 FFF28293 FE029DE3 | ends stopped 2 BadAccess 1000e 6
# c.addi a0,1; jal x0,0x20000; and there c.addi a0,4; jal x0,0x10000
0505 7FF0F06F | data code 00020000 00000006 0 0511 FFFEF06F; | steps 8 | ends spent 10000 a
# the same with data between them in the file
0505 7FF0F06F | data 00100000 00000010 0 01; code 00020000 00000006 0 0511 FFFEF06F; | steps 8 | ends spent 10000 a
# the same with a second region that begins at an odd address, a byte before its first instruction: jal x0,0x20002
0505 0001006F | data code 00020001 00000007 0 00 0511 FFDEF06F; | steps 8 | ends spent 10000 a
# c.nop; a word whose second halfword lies in the next region of code, where c.nop comes after it
0001 0513 | data code 00010004 00000004 0 0050 0001; | ends stopped 2 BadAccess 10002 0
# c.li a0,3; half a halfword
450D 01 | ends stopped 2 BadAccess 10002 3";

/// Each program, and the results of its steps, one after another.
pub const STEPS: &str = "
# c.li a0,3; addi a7,x0,93; ecall
text 450D 05D00893 00000073 | answers committed; committed; wants exit 3; wants exit 3
# c.li a0,3, and the end of the text
text 450D | answers committed; stopped 2 BadAccess; stopped 2 BadAccess
# the same with half a word after it, also where the other half is in the next region of code
text 450D 0893 | answers committed; stopped 2 BadAccess; stopped 2 BadAccess
text 450D 0893 | data code 00010004 00000002 0 0300; | answers committed; stopped 2 BadAccess; stopped 2 BadAccess
# addi a7,x0,63; addi a1,sp,-16; ecall: a read of no bytes, as a2 is 0
text 03F00893 FF010593 00000073 | answers committed; committed; wants read ffffff0 0; wants read ffffff0 0
# c.li a0,2; addi a7,x0,64; addi a1,sp,-16; addi a2,x0,4; ecall
text 4509 04000893 FF010593 00400613 00000073 | answers committed; committed; committed; committed; wants write 2 ffffff0 4
# lui a0,0x10013; lw a1,0(a0), and lbu a1,3(a0): outside memory
text 10013537 00052583 | answers committed; asks Lw 10013000 11 4; asks Lw 10013000 11 4
text 10013537 00354583 | answers committed; asks Lbu 10013003 11 4
# lui a0,0x10013; sb a0,4(a0), and c.sw a0,4(a0)
text 10013537 00A50223 | answers committed; asks Sb 10013004 10013000 4
text 10013537 C148 | answers committed; asks Sw 10013004 10013000 2
# lh a1,-1(sp), which isn't aligned, and lh a1,0(sp), which is outside the stack
text FFF11583 | answers stopped 3 Misaligned
text 00011583 | answers asks Lh 10000000 11 4
# lui a0,0x10013; csrrw a1,mstatus,a0
text 10013537 300515F3 | answers committed; asks system 300515f3 10013000; asks system 300515f3 10013000
# csrrwi a1,mstatus,8, and wfi, and c.nop; csrrs a1,mstatus,x0
text 300455F3 | answers asks system 300455f3 8
text 10500073 | answers asks system 10500073 0
text 0001 300025F3 | answers committed; asks system 300025f3 0
# csrrs a1,jvt,x0, and mret
text 017025F3 | answers stopped 1 Illegal
text 30200073 | answers stopped 1 Illegal
# c.nop; half of csrrs a1,mstatus,x0, also where the other half is in the next region of code
text 0001 25F3 | answers committed; stopped 2 BadAccess
text 0001 25F3 | data code 00010004 00000002 0 3000; | answers committed; stopped 2 BadAccess";

/// Programs as in `PAGES`, in maps of their own: where data lie, and where the stack begins and ends.
pub const MAPS: &str = "
# RAM of 128 bytes, of which the stack has 16: lui t0,0x20000; addi t1,x0,5; sw t1,0(t0); sw t1,108(t0); lw a0,0(t0); lw a1,108(t0); add a0,a0,a1; addi a7,x0,93; ecall
200002B7 00500313 0062A023 0662A623 0002A503 06C2A583 00B50533 05D00893 00000073 | map 20000000 20000070 20000080 | data 20000000 00000070 0; | ends exited 10 10020 a
# lui t0,0x20000; addi sp,t0,112; addi t1,x0,6; sw t1,0(sp); lui t2,0x20000; sw t1,124(t2); lw a0,0(sp); lw a1,124(t2); add a0,a0,a1; addi a7,x0,93; ecall
200002B7 07028113 00600313 00612023 200003B7 0663AE23 00012503 07C3A583 00B50533 05D00893 00000073 | map 20000000 20000070 20000080 | data 20000000 00000070 0; | ends exited 12 10028 c
# of 48, where data end at the stack: lui t0,0x20000; addi t1,x0,5; sw t1,0(t0); sw t1,28(t0); lw a0,0(t0); lw a1,28(t0); add a0,a0,a1; addi a7,x0,93; ecall
200002B7 00500313 0062A023 0062AE23 0002A503 01C2A583 00B50533 05D00893 00000073 | map 20000000 20000020 20000030 | data 20000000 00000020 0; | ends exited 10 10020 a
# lui t0,0x20000; addi sp,t0,32; addi t1,x0,6; sw t1,0(sp); lui t2,0x20000; sw t1,44(t2); lw a0,0(sp); lw a1,44(t2); add a0,a0,a1; addi a7,x0,93; ecall
200002B7 02028113 00600313 00612023 200003B7 0263A623 00012503 02C3A583 00B50533 05D00893 00000073 | map 20000000 20000020 20000030 | data 20000000 00000020 0; | ends exited 12 10028 c
# of 2 KiB: lui t0,0x20000; addi t1,x0,5; sw t1,0(t0); sw t1,1020(t0); lw a0,0(t0); lw a1,1020(t0); add a0,a0,a1; addi a7,x0,93; ecall
200002B7 00500313 0062A023 3E62AE23 0002A503 3FC2A583 00B50533 05D00893 00000073 | map 20000000 20000400 20000800 | data 20000000 00000400 0; | ends exited 10 10020 a
# lui t0,0x20000; addi sp,t0,1024; addi t1,x0,6; sw t1,0(sp); lui t2,0x20000; sw t1,2044(t2); lw a0,0(sp); lw a1,2044(t2); add a0,a0,a1; addi a7,x0,93; ecall
200002B7 40028113 00600313 00612023 200003B7 7E63AE23 00012503 7FC3A583 00B50533 05D00893 00000073 | map 20000000 20000400 20000800 | data 20000000 00000400 0; | ends exited 12 10028 c
# of 520 KiB: lui t0,0x20000; lui t2,0x20081; addi t1,x0,5; sw t1,0(t0); sw t1,-4(t2); lw a0,0(t0); lw a1,-4(t2); add a0,a0,a1; addi a7,x0,93; ecall
200002B7 200813B7 00500313 0062A023 FE63AE23 0002A503 FFC3A583 00B50533 05D00893 00000073 | map 20000000 20081000 20082000 | data 20000000 00081000 0; | ends exited 10 10024 a
# lui t0,0x20081; addi sp,t0,0; addi t1,x0,6; sw t1,0(sp); lui t2,0x20082; sw t1,-4(t2); lw a0,0(sp); lw a1,-4(t2); add a0,a0,a1; addi a7,x0,93; ecall
200812B7 00028113 00600313 00612023 200823B7 FE63AE23 00012503 FFC3A583 00B50533 05D00893 00000073 | map 20000000 20081000 20082000 | data 20000000 00081000 0; | ends exited 12 10028 c
# of 16 MiB: lui t0,0x20000; lui t2,0x20400; addi t1,x0,5; sw t1,0(t0); sw t1,-4(t2); lw a0,0(t0); lw a1,-4(t2); add a0,a0,a1; addi a7,x0,93; ecall
200002B7 204003B7 00500313 0062A023 FE63AE23 0002A503 FFC3A583 00B50533 05D00893 00000073 | map 20000000 20800000 21000000 | data 20000000 00400000 0; | ends exited 10 10024 a
# lui t0,0x20800; addi sp,t0,0; addi t1,x0,6; sw t1,0(sp); lui t2,0x21000; sw t1,-4(t2); lw a0,0(sp); lw a1,-4(t2); add a0,a0,a1; addi a7,x0,93; ecall
208002B7 00028113 00600313 00612023 210003B7 FE63AE23 00012503 FFC3A583 00B50533 05D00893 00000073 | map 20000000 20800000 21000000 | data 20000000 00400000 0; | ends exited 12 10028 c
# before data: lui t2,0x20000; lbu a0,-1(t2)
200003B7 FFF3C503 | map 20000000 20000070 20000080 | data 20000000 0000006c 0; | ends stopped 2 BadAccess 10004 0
# behind data: lui t2,0x20000; lbu a0,108(t2)
200003B7 06C3C503 | map 20000000 20000070 20000080 | data 20000000 0000006c 0; | ends stopped 2 BadAccess 10004 0
# before the stack: lui t2,0x20000; lbu a0,111(t2)
200003B7 06F3C503 | map 20000000 20000070 20000080 | data 20000000 0000006c 0; | ends stopped 2 BadAccess 10004 0
# behind the stack: lui t2,0x20000; lbu a0,128(t2)
200003B7 0803C503 | map 20000000 20000070 20000080 | data 20000000 0000006c 0; | ends stopped 2 BadAccess 10004 0
# lui t2,0x20000; lbu a0,-1(t2)
200003B7 FFF3C503 | map 20000000 20800000 21000000 | data 20000000 00400000 0; | ends stopped 2 BadAccess 10004 0
# lui t2,0x20400; lbu a0,0(t2)
204003B7 0003C503 | map 20000000 20800000 21000000 | data 20000000 00400000 0; | ends stopped 2 BadAccess 10004 0
# lui t2,0x20800; lbu a0,-1(t2)
208003B7 FFF3C503 | map 20000000 20800000 21000000 | data 20000000 00400000 0; | ends stopped 2 BadAccess 10004 0
# lui t2,0x21000; lbu a0,0(t2)
210003B7 0003C503 | map 20000000 20800000 21000000 | data 20000000 00400000 0; | ends stopped 2 BadAccess 10004 0
# a buffer from data into the stack: addi a0,x0,1; lui a1,0x20000; addi a1,a1,28; addi a2,x0,8; addi a7,x0,64; ecall
00100513 200005B7 01C58593 00800613 04000893 00000073 | map 20000000 20000020 20000030 | data 20000000 00000020 0; | ends stopped 2 BadAccess 10014 1
# a frame of the whole stack: addi ra,x0,7; cm.push {ra, s0},-16; addi ra,x0,0; cm.pop {ra, s0},16; addi a0,ra,0; addi a7,x0,93; ecall
00700093 B852 00000093 BA52 00008513 05D00893 00000073 | map 20000000 20000070 20000080 | ends exited 7 10014 7
# one more: cm.push {ra, s0},-16; cm.push {ra},-16
B852 B842 | map 20000000 20000070 20000080 | ends stopped 2 BadAccess 10002 0";

/// Maps, and whether a segment of data ends early enough: at the stack's low end, and 4 MiB behind its start.
pub const DATA_ENDS: &str = "
map 20000000 20000070 20000080 | data 20000000 0000006f 0; | ends fit
map 20000000 20000070 20000080 | data 20000000 00000070 0; | ends fit
map 20000000 20000070 20000080 | data 20000000 00000071 0; | ends BadSegment
map 20000000 20000400 20000800 | data 20000000 000003ff 0; | ends fit
map 20000000 20000400 20000800 | data 20000000 00000400 0; | ends fit
map 20000000 20000400 20000800 | data 20000000 00000401 0; | ends BadSegment
map 20000000 20081000 20082000 | data 20000000 00080fff 0; | ends fit
map 20000000 20081000 20082000 | data 20000000 00081000 0; | ends fit
map 20000000 20081000 20082000 | data 20000000 00081001 0; | ends BadSegment
map 20000000 20800000 21000000 | data 20000000 003fffff 0; | ends fit
map 20000000 20800000 21000000 | data 20000000 00400000 0; | ends fit
map 20000000 20800000 21000000 | data 20000000 00400001 0; | ends BadSegment";
