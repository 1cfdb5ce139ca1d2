// Tables of accesses and programs, as `row` reads them. Words and bytes are hexadecimal. What is expected is worked out
// by the manual: a device's bytes come lowest first, and a load widens them.

// lui t0,0x10000
pub const BEFORE_LOAD: &str = "100002B7";

// sw a0,8(t0); addi a7,x0,93; ecall
pub const AFTER_LOAD: &str = "| then 00A2A423 05D00893 00000073 | devices *";

// lui t0,0x10000; lui a1,0x84030; addi a1,a1,0x201; addi a0,x0,0
pub const BEFORE_STORE: &str = "100002B7 840305B7 20158593 00000513";

// addi a7,x0,93; ecall
pub const EXIT: &str = "| then 05D00893 00000073";

/// Each row: loads into a0, what devices answer, and how the program ends that then stores a0 where it appears. `stuck`
/// says why an object is stuck where an image ends otherwise.
pub const LOADS: &str = "
00028503 | in 83 01 | out 83 FF FF FF | ends exited 131 | lb a0,0(t0)
00F28503 | in 7F | out 7F 00 00 00 | ends exited 127 | lb a0,15(t0)
0002C503 | in 83 01 | out 83 00 00 00 | ends exited 131 | lbu a0,0(t0)
00F2C503 | in FF | out FF 00 00 00 | ends exited 255 | lbu a0,15(t0)
00029503 | in 01 83 FF | out 01 83 FF FF | ends exited 1 | lh a0,0(t0)
00E29503 | in FF 7F | out FF 7F 00 00 | ends exited 255 | lh a0,14(t0)
0002D503 | in 01 83 FF | out 01 83 00 00 | ends exited 1 | lhu a0,0(t0)
00E2D503 | in 02 80 | out 02 80 00 00 | ends exited 2 | lhu a0,14(t0)
0002A503 | in 01 02 03 84 05 | out 01 02 03 84 | ends exited 1 | lw a0,0(t0)
00C2A503 | in 04 03 02 01 | out 04 03 02 01 | ends exited 4 | lw a0,12(t0)
0042A503 | in 01 02 | out 01 02 00 00 | ends exited 1 | lw a0,4(t0)
00029503 | in 83 | out 83 00 00 00 | ends exited 131 | lh a0,0(t0)
00028503 | out 00 00 00 00 | ends exited 0 | lb a0,0(t0)
0002A003 00028503 | in 01 02 03 04 85 | out 85 FF FF FF | ends exited 133 | lw x0,0(t0); lb a0,0(t0)
0002A583 00028503 | in 01 02 03 | out 00 00 00 00 | ends exited 0 | lw a1,0(t0); lb a0,0(t0)
00128503 0012C583 40B50533 | in 05 02 | out 03 00 00 00 | ends exited 3 | lb a0,1(t0); lbu a1,1(t0); sub a0,a0,a1
01028503 | in 01 | ends stopped BadAccess | stuck BadAddress | lb a0,16(t0)
0102D503 | in 01 02 | ends stopped BadAccess | stuck BadAddress | lhu a0,16(t0)
0102A503 | in 01 02 03 04 | ends stopped BadAccess | stuck BadAddress | lw a0,16(t0)
00F29503 | in 01 02 | ends stopped Misaligned | stuck Misaligned | lh a0,15(t0)
0012D503 | in 01 02 | ends stopped Misaligned | stuck Misaligned | lhu a0,1(t0)
0022A503 | in 01 02 03 04 | ends stopped Misaligned | stuck Misaligned | lw a0,2(t0)
00D2A503 | in 01 02 03 04 | ends stopped Misaligned | stuck Misaligned | lw a0,13(t0)";

/// Each row: stores of 0x84030201, the devices, which call of the console fails, what appears, and how the program
/// ends.
pub const STORES: &str = "
00B28423 | devices * | out 01 | ends exited 0 | sb a1,8(t0)
00B285A3 | devices * | out 01 | ends exited 0 | sb a1,11(t0)
00B283A3 | devices * | ends exited 0 | sb a1,7(t0)
00B28623 | devices * | ends exited 0 | sb a1,12(t0)
00B29423 | devices * | out 01 02 | ends exited 0 | sh a1,8(t0)
00B29523 | devices * | out 01 02 | ends exited 0 | sh a1,10(t0)
00B2A423 | devices * | out 01 02 03 84 | ends exited 0 | sw a1,8(t0)
00B2A423 | devices + | ends exited 0 | sw a1,8(t0)
00B2A423 | devices +/output 10000008 | out 01 | ends exited 0 | sw a1,8(t0)
00B2A423 | devices +/output 10000009 | out 02 | ends exited 0 | sw a1,8(t0)
00B2A423 | devices +/output 1000000a | out 03 | ends exited 0 | sw a1,8(t0)
00B2A423 | devices +/output 1000000b | out 84 | ends exited 0 | sw a1,8(t0)
00B2A423 | devices +/output 1000000b/output 10000008 | out 01 84 | ends exited 0 | sw a1,8(t0)
00B2A423 | devices +/output 10000009/output 1000000a | out 02 03 | ends exited 0 | sw a1,8(t0)
00B29523 | devices +/output 1000000b/output 10000008 | out 02 | ends exited 0 | sh a1,10(t0)
00B28023 00B287A3 | devices +/output 10000000/output 1000000f | out 01 01 | ends exited 0 | sb a1,0(t0); sb a1,15(t0)
00B2A623 00B2A023 | devices +/output 10000000/output 1000000f | out 84 01 | ends exited 0 | sw a1,12(t0); sw a1,0(t0)
FEB00FA3 | devices /device fffffffc 00000004/output ffffffff | out 01 | ends exited 0 | sb a1,-1(x0)
FEB02E23 | devices /device fffffffc 00000004/output ffffffff | out 84 | ends exited 0 | sw a1,-4(x0)
00B02023 | devices /device 00000000 00000004/output 00000003 | out 84 | ends exited 0 | sw a1,0(x0)
FEB28FA3 | devices * | ends exited 0 | sb a1,-1(t0)
00B28823 | devices * | ends stopped BadAccess | stuck BadAddress | sb a1,16(t0)
00B2A823 | devices * | ends stopped BadAccess | stuck BadAddress | sw a1,16(t0)
00B294A3 | devices * | ends stopped Misaligned | stuck Misaligned | sh a1,9(t0)
00B2A523 | devices * | ends stopped Misaligned | stuck Misaligned | sw a1,10(t0)
00B2A623 | devices /device 10000000 0000000f/output 1000000c | ends stopped BadAccess | stuck BadAddress | sw a1,12(t0)
00B29623 | devices /device 10000000 0000000f/output 1000000c | out 01 | ends exited 0 | sh a1,12(t0)
00B2A023 | devices /device 10000000 00000002/device 10000002 00000002/output 10000000 | ends stopped BadAccess | stuck BadAddress | sw a1,0(t0)
00B2A023 | devices /device 10000001 00000003/output 10000001 | ends stopped BadAccess | stuck BadAddress | sw a1,0(t0)
00B2A423 00B28423 | devices * | fails 0 | ends fault | sw a1,8(t0); sb a1,8(t0)
00B2A423 00B28423 | devices * | fails 1 | out 01 02 03 84 | ends fault | sw a1,8(t0); sb a1,8(t0)
00B2A423 00B28423 | devices * | fails 2 | out 01 02 03 84 01 | ends exited 0 | sw a1,8(t0); sb a1,8(t0)
00B2A423 | devices +/output 10000008/output 1000000b | fails 0 | ends fault | sw a1,8(t0)";

/// Each program, its devices, its input, the most steps that it may make, what it writes, and how it ends.
pub const PROGRAMS: &str = "
# loads and a read take from the same bytes: lui t0,0x10000; lbu a3,0(t0); addi a7,x0,63; addi a0,x0,0; addi sp,sp,-16; addi a1,sp,0; addi a2,x0,4; ecall; lbu a4,0(t0); sb a3,8(t0); sb a4,8(t0); addi a0,x0,1; addi a7,x0,64; ecall; addi a7,x0,93; ecall
100002B7 0002C683 03F00893 00000513 FF010113 00010593 00400613 00000073 0002C703 00D28423 00E28423 00100513 04000893 00000073 05D00893 00000073 | devices */answer 61 62/then 63 64 | in 78 79 | out 61 64 62 63 64 63 | ends exited 4
100002B7 0002C683 03F00893 00000513 FF010113 00010593 00400613 00000073 0002C703 00D28423 00E28423 00100513 04000893 00000073 05D00893 00000073 | devices * | in 61 62 63 64 65 66 67 | out 61 66 62 63 64 65 | ends exited 4
100002B7 0002C683 03F00893 00000513 FF010113 00010593 00400613 00000073 0002C703 00D28423 00E28423 00100513 04000893 00000073 05D00893 00000073 | devices * | in 61 62 63 64 65 66 67 | fails 2 | out 61 66 | ends fault
100002B7 0002C683 03F00893 00000513 FF010113 00010593 00400613 00000073 0002C703 00D28423 00E28423 00100513 04000893 00000073 05D00893 00000073 | devices * | in 61 62 63 64 65 66 67 | fails 1 | out 61 | ends fault
# a device is asked until it is ready: lui t0,0x10000; lbu a0,0(t0); beq a0,x0,-4; sb a0,8(t0); addi a7,x0,93; ecall
100002B7 0002C503 FE050EE3 00A28423 05D00893 00000073 | devices */answer 00 00 00 07 | out 07 | ends exited 7
100002B7 0002C503 FE050EE3 00A28423 05D00893 00000073 | devices */answer 00/then 00 00 00 | steps 1000 | ends spent
100002B7 0002C503 FE050EE3 00A28423 05D00893 00000073 | devices */then 00 00 00 07 | steps 10 | out 07 | ends spent
100002B7 0002C503 FE050EE3 00A28423 05D00893 00000073 | devices */then 00 00 00 07 | steps 9 | ends spent
100002B7 0002C503 FE050EE3 00A28423 05D00893 00000073 | devices */then 00 00 00 07 | steps 12 | out 07 | ends exited 7
# an access by sp: lw a0,0(sp); addi a7,x0,93; ecall
00012503 05D00893 00000073 | devices + | in 05 00 00 00 | ends exited 5 | stuck BadAddress
# sw sp,0(sp); addi a0,x0,6; addi a7,x0,93; ecall
00212023 00600513 05D00893 00000073 | devices +/output 10000003 | out 10 | ends exited 6 | stuck BadAddress
# a load into sp: lui t0,0x10000; lw sp,0(t0); addi a0,x0,7; addi a7,x0,93; ecall
100002B7 0002A103 00700513 05D00893 00000073 | devices + | in 00 00 00 10 | ends exited 7
100002B7 0002A103 00700513 05D00893 00000073 | devices + | in 04 00 00 10 | ends exited 7 | stuck StackPointer
# a register that nothing has written: lui t0,0x10000; sb a1,8(t0); addi a0,x0,0; addi a7,x0,93; ecall
100002B7 00B28423 00000513 05D00893 00000073 | devices * | out 00 | ends exited 0 | stuck BadAddress
# a part of an address: jal ra,4; lui t0,0x10000; sb ra,8(t0); addi a0,x0,0; addi a7,x0,93; ecall
004000EF 100002B7 00128423 00000513 05D00893 00000073 | devices * | out 04 | ends exited 0 | stuck BadAddress
# the last word below memory, and the first of code: lui t1,0x10; lw a0,-4(t1); addi a7,x0,93; ecall
00010337 FFC32503 05D00893 00000073 | devices /device 0000fffc 00000004 | in 09 00 00 00 | ends exited 9
# lui t1,0x10; lw a0,0(t1); addi a7,x0,93; ecall
00010337 00032503 05D00893 00000073 | devices /device 0000fffc 00000004 | in 09 00 00 00 | ends stopped BadAccess | stuck BadAddress
# the last word of memory: addi sp,sp,-16; addi a1,x0,3; sw a1,12(sp); lui t0,0x10000; lw a0,-4(t0); addi a7,x0,93; ecall
FF010113 00300593 00B12623 100002B7 FFC2A503 05D00893 00000073 | devices + | in 09 00 00 00 | ends exited 3
# a call's buffer: lui a1,0x10000; addi a2,x0,4; addi a7,x0,63; addi a0,x0,0; ecall
100005B7 00400613 03F00893 00000513 00000073 | devices + | in 01 02 03 04 | ends stopped BadAccess | stuck BadAddress
# a jump: lui t0,0x10000; jalr x0,0(t0)
100002B7 00028067 | devices + | in 13 00 00 00 | ends stopped BadAccess | stuck TargetUnknown
# a device behind a stack of 16 bytes, and the stack's last word: lui t0,0x100; lw a0,128(t0); sw a0,132(t0); addi a7,x0,93; ecall
001002B7 0802A503 08A2A223 05D00893 00000073 | map 00100000 00100070 00100080 | devices /device 00100080 00000010/output 00100084 | in 05 01 00 00 | out 05 | ends exited 5
# addi sp,sp,-16; addi a1,x0,3; sw a1,12(sp); lui t0,0x100; lw a0,124(t0); addi a7,x0,93; ecall
FF010113 00300593 00B12623 001002B7 07C2A503 05D00893 00000073 | map 00100000 00100070 00100080 | devices /device 00100080 00000010/output 00100084 | in 05 00 00 00 | ends exited 3
# compressed: lui a1,0x10000; c.lw a0,4(a1); c.sw a0,8(a1); addi a7,x0,93; ecall
100005B7 41C8 C588 05D00893 00000073 | devices * | flags 1 | in 01 02 03 84 | out 01 02 03 84 | ends exited 1
# lui a1,0x10000; c.lw a0,4(a1); c.lw a0,4(a1); c.sw a0,12(a1); addi a7,x0,93; ecall
100005B7 41C8 41C8 C5C8 05D00893 00000073 | devices +/output 1000000c/output 1000000f | flags 1 | in 01 02 03 84 05 06 07 | out 05 00 | ends exited 5
# c.lwsp a0,4(sp); c.swsp a0,8(sp); addi a7,x0,93; ecall
4512 C42A 05D00893 00000073 | devices * | flags 1 | in 01 02 03 84 | out 01 02 03 84 | ends exited 1 | stuck BadAddress";

/// Programs as in `PROGRAMS` that only images have, with what interrupts them.
pub const IMAGES: &str = "
# lui a1,0x10000; c.lbu a0,3(a1); c.sw a0,8(a1); addi a7,x0,93; ecall
100005B7 81E8 C588 05D00893 00000073 | devices * | in 83 | out 83 00 00 00 | ends exited 131
# lui a1,0x10000; c.lhu a0,2(a1); c.sw a0,8(a1); addi a7,x0,93; ecall
100005B7 85A8 C588 05D00893 00000073 | devices * | in 01 83 | out 01 83 00 00 | ends exited 1
# lui a1,0x10000; c.lh a0,0(a1); c.sw a0,8(a1); addi a7,x0,93; ecall
100005B7 85C8 C588 05D00893 00000073 | devices * | in 01 83 | out 01 83 FF FF | ends exited 1
# lui a1,0x10000; c.li a0,-2; c.sb a0,2(a1); c.sh a0,2(a1); addi a7,x0,93; ecall
100005B7 5579 89A8 8DA8 05D00893 00000073 | devices +/output 10000002/output 10000003 | out FE FE FF | ends exited 254
# a frame in a device: c.addi sp,16; cm.push {ra}, -16
0141 B842 | devices + | ends stopped BadAccess
# a frame partly in a device: c.addi sp,8; cm.push {ra, s0-s2}, -16
0121 B872 | devices + | ends stopped BadAccess
# cm.pop {ra}, 16
BA42 | devices + | in 01 02 03 04 | ends stopped BadAccess
# a table in a device: lui t1,0x10000; csrrw x0,0x17,t1; cm.jt 0
10000337 01731073 A002 | devices + | in 01 02 03 04 | ends stopped BadAccess
# interrupts around each access: lui t0,0x10000; lb a0,0(t0); sw a0,8(t0); addi a7,x0,93; ecall
100002B7 00028503 00A2A423 05D00893 00000073 | devices * | in 83 01 | plan /cut 0/cut 1/cut 2 d0ffffffc:ee/cut 3 d0ffffffc:ee/cut 4/cut 5 | out 83 FF FF FF | ends exited 131
100002B7 00028503 00A2A423 05D00893 00000073 | devices * | in 83 01 | plan /cut 1/cut 1/cut 1/cut 2/cut 2 | steps 2 | ends spent
100002B7 00028503 00A2A423 05D00893 00000073 | devices * | in 83 01 | plan /cut 1/cut 2/cut 2 d10000008:ee/cut 3 | steps 3 | out 83 FF FF FF | ends spent
100002B7 00028503 00A2A423 05D00893 00000073 | devices * | in 83 01 | plan /cut 2/cut 3/cut 3 | steps 3 | fails 0 | ends fault
# interrupts before each commit of a start: auipc sp,0xfff0; addi sp,sp,0; auipc t0,0; addi t0,t0,28; csrrw x0,mtvec,t0; csrrci a0,mstatus,8; csrrs x0,mie,a0; wfi; addi a7,x0,93; ecall
0FFF0117 00010113 00000297 01C28293 30529073 30047573 30452073 10500073 05D00893 00000073 | devices /registers/reset | in 07 00 00 00 | plan /cut 0 a0 d0ffffffc:ee/cut 1 d0ffffffc:ee/cut 2 a0 d0ffffffc:ee/cut 3 d0ffffff8:ee/cut 4 d0ffffff4:ee/cut 5 a0/cut 6 d0ffffff0:ee/cut 7 d0fffffec:ee/cut 8 d0fffffe8:ee/cut 9 a0 | ends exited 7
# an address of code in a device: jal ra,4; lui t0,0x10000; sw ra,8(t0); addi a0,x0,6; addi a7,x0,93; ecall
004000EF 100002B7 0012A423 00600513 05D00893 00000073 | devices * | out 04 00 01 00 | ends exited 6";

/// Programs as in `PROGRAMS` that only objects have, with their relocations. Symbol 1 is the code's first byte, and 3,
/// `w`, is weak, and not defined.
pub const OBJECTS: &str = "
# lui t0,%hi(w+10000004); lw a0,%lo(w+10000004)(t0); addi a7,x0,93; ecall
000002B7 0002A503 05D00893 00000073 | devices + | in 05 00 00 00 | relocs 00000000 0000031A 10000004 00000004 0000031B 10000004 | ends exited 5
# lui t0,%hi(w+fffffffc); addi a0,x0,6; sh a0,%lo(w+fffffffe)(t0); addi a7,x0,93; ecall
000002B7 00600513 00A29023 05D00893 00000073 | devices /device fffffffc 00000004/output ffffffff/output fffffffe | relocs 00000000 0000031A FFFFFFFC 00000008 0000031C FFFFFFFE | out 06 00 | ends exited 6
# auipc t0,%pcrel_hi(w+1000000c); lbu a0,%pcrel_lo(code)(t0); addi a7,x0,93; ecall
00000297 0002C503 05D00893 00000073 | devices + | in 05 00 00 00 | relocs 00000000 00000317 1000000C 00000004 00000118 00000000 | ends exited 5
# auipc t0,%pcrel_hi(w+10000008); addi a0,x0,7; sw a0,%pcrel_lo(code)(t0); addi a7,x0,93; ecall
00000297 00700513 00A2A023 05D00893 00000073 | devices * | relocs 00000000 00000317 10000008 00000008 00000119 00000000 | out 07 00 00 00 | ends exited 7
# auipc t0,%pcrel_hi(w+10000010); lw a0,%pcrel_lo(code)(t0)
00000297 0002A503 | devices + | in 05 00 00 00 | relocs 00000000 00000317 10000010 00000004 00000118 00000000 | stuck BadAddress
# la sp,w+10000000: auipc sp,%pcrel_hi(w+10000000); addi sp,sp,%pcrel_lo(code); addi a1,x0,3; addi sp,sp,-16; sw a1,12(sp); lw a0,12(sp); addi a7,x0,93; ecall
00000117 00010113 00300593 FF010113 00B12623 00C12503 05D00893 00000073 | devices /reset | relocs 00000000 00000317 10000000 00000004 00000118 00000000 | ends exited 3
00000117 00010113 00300593 FF010113 00B12623 00C12503 05D00893 00000073 | devices /registers | relocs 00000000 00000317 10000000 00000004 00000118 00000000 | stuck StackPointer
# lui sp,%hi(w+00100080); addi sp,sp,%lo(w+00100080); addi a0,x0,7; addi a7,x0,93; ecall
00000137 00010113 00700513 05D00893 00000073 | map 00100000 00100070 00100080 | devices /reset | relocs 00000000 0000031A 00100080 00000004 0000031B 00100080 | ends exited 7
# the same outside the stack, and an access by sp: lui sp,%hi(w+20000000); addi sp,sp,%lo(w+20000000); lw a0,0(sp)
00000137 00010113 00012503 | devices /reset | relocs 00000000 0000031A 20000000 00000004 0000031B 20000000 | stuck StackPointer
# the handler's address: auipc t0,%pcrel_hi(code); addi t0,t0,%pcrel_lo(code); csrrw x0,mtvec,t0; addi a0,x0,7; addi a7,x0,93; ecall
00000297 00028293 30529073 00700513 05D00893 00000073 | devices /registers | relocs 00000000 00000117 00000000 00000004 00000118 00000000 | ends exited 7
# lui t0,%hi(code); addi t0,t0,%lo(code); csrrs a0,mtvec,t0; addi a7,x0,93; ecall
000002B7 00028293 3052A573 05D00893 00000073 | devices /registers | in 05 00 00 00 | relocs 00000000 0000011A 00000000 00000004 0000011B 00000000 | ends exited 5
# its upper part: auipc t0,%pcrel_hi(code); csrrw x0,mtvec,t0
00000297 30529073 | devices /registers | relocs 00000000 00000117 00000000 | stuck ArgumentUnknown
# lui t0,%hi(code); csrrw x0,mtvec,t0
000002B7 30529073 | devices /registers | relocs 00000000 0000011A 00000000 | stuck ArgumentUnknown
# an address of code in a device: jal ra,4; lui t0,0x10000; sw ra,8(t0); addi a0,x0,6; addi a7,x0,93; ecall
004000EF 100002B7 0012A423 00600513 05D00893 00000073 | devices * | ends exited 6";

// lui t0,0x10000; addi a0,x0,9
pub const BEFORE_SYSTEM: &str = "100002B7 00900513";

// sw a0,8(t0); addi a7,x0,93; ecall
pub const AFTER_SYSTEM: &str = "| then 00A2A423 05D00893 00000073 | devices */registers";

/// Each row: instructions of the system, what is answered, and how the program ends that then stores a0 where it
/// appears.
pub const SYSTEM: &str = "
30029573 | in 81 02 03 04 05 | out 81 02 03 04 | ends exited 129 | csrrw a0,mstatus,t0
3002A573 | in 81 02 03 04 05 | out 81 02 03 04 | ends exited 129 | csrrs a0,mstatus,t0
3002B573 | in 81 02 03 04 05 | out 81 02 03 04 | ends exited 129 | csrrc a0,mstatus,t0
30045573 | in 81 02 03 04 05 | out 81 02 03 04 | ends exited 129 | csrrwi a0,mstatus,8
30046573 | in 81 02 03 04 05 | out 81 02 03 04 | ends exited 129 | csrrsi a0,mstatus,8
30047573 | in 81 02 03 04 05 | out 81 02 03 04 | ends exited 129 | csrrci a0,mstatus,8
30001573 | in 81 02 03 04 05 | out 81 02 03 04 | ends exited 129 | csrrw a0,mstatus,x0
30002573 | in 81 02 03 04 05 | out 81 02 03 04 | ends exited 129 | csrrs a0,mstatus,x0
30003573 | in 81 02 03 04 05 | out 81 02 03 04 | ends exited 129 | csrrc a0,mstatus,x0
30005573 | in 81 02 03 04 05 | out 81 02 03 04 | ends exited 129 | csrrwi a0,mstatus,0
30006573 | in 81 02 03 04 05 | out 81 02 03 04 | ends exited 129 | csrrsi a0,mstatus,0
30007573 | in 81 02 03 04 05 | out 81 02 03 04 | ends exited 129 | csrrci a0,mstatus,0
30029073 3002A073 3002B073 | in 81 | out 09 00 00 00 | ends exited 9 | csrrw x0,mstatus,t0; csrrs x0,mstatus,t0; csrrc x0,mstatus,t0
30045073 30046073 30047073 | in 81 | out 09 00 00 00 | ends exited 9 | csrrwi x0,mstatus,8; csrrsi x0,mstatus,8; csrrci x0,mstatus,8
30029073 0002C503 | in 81 02 | out 81 00 00 00 | ends exited 129 | csrrw x0,mstatus,t0; lbu a0,0(t0)
3002A073 0002C503 | in 81 02 | out 81 00 00 00 | ends exited 129 | csrrs x0,mstatus,t0; lbu a0,0(t0)
3002B073 0002C503 | in 81 02 | out 81 00 00 00 | ends exited 129 | csrrc x0,mstatus,t0; lbu a0,0(t0)
30045073 0002C503 | in 81 02 | out 81 00 00 00 | ends exited 129 | csrrwi x0,mstatus,8; lbu a0,0(t0)
30046073 0002C503 | in 81 02 | out 81 00 00 00 | ends exited 129 | csrrsi x0,mstatus,8; lbu a0,0(t0)
30047073 0002C503 | in 81 02 | out 81 00 00 00 | ends exited 129 | csrrci x0,mstatus,8; lbu a0,0(t0)
30001073 30002073 30003073 0002C503 | in 81 02 | out 81 00 00 00 | ends exited 129 | csrrw x0,mstatus,x0; csrrs x0,mstatus,x0; csrrc x0,mstatus,x0; lbu a0,0(t0)
30005073 30006073 30007073 0002C503 | in 81 02 | out 81 00 00 00 | ends exited 129 | csrrwi x0,mstatus,0; csrrsi x0,mstatus,0; csrrci x0,mstatus,0; lbu a0,0(t0)
10500073 0002C503 | in 81 02 | out 81 00 00 00 | ends exited 129 | wfi; lbu a0,0(t0)
300025F3 0002C503 | in 01 02 03 04 85 | out 85 00 00 00 | ends exited 133 | csrrs a1,mstatus,x0; lbu a0,0(t0)
30002573 | in 81 02 | out 81 02 00 00 | ends exited 129 | csrrs a0,mstatus,x0
30002573 | out 00 00 00 00 | ends exited 0 | csrrs a0,mstatus,x0
00002573 | in 81 02 03 04 | out 81 02 03 04 | ends exited 129 | csrrs a0,0x000,x0
FFF02573 | in 81 02 03 04 | out 81 02 03 04 | ends exited 129 | csrrs a0,0xfff,x0
01602573 | in 81 02 03 04 | out 81 02 03 04 | ends exited 129 | csrrs a0,0x016,x0
01802573 | in 81 02 03 04 | out 81 02 03 04 | ends exited 129 | csrrs a0,0x018,x0
01702573 | in 81 02 03 04 | ends stopped Illegal | stuck NoInstruction | csrrs a0,jvt,x0
0172A073 | in 81 02 03 04 | ends stopped Illegal | stuck NoInstruction | csrrs x0,jvt,t0
0172B573 | in 81 02 03 04 | ends stopped Illegal | stuck NoInstruction | csrrc a0,jvt,t0
01745573 | in 81 02 03 04 | ends stopped Illegal | stuck NoInstruction | csrrwi a0,jvt,8
01746573 | in 81 02 03 04 | ends stopped Illegal | stuck NoInstruction | csrrsi a0,jvt,8
01747573 | in 81 02 03 04 | ends stopped Illegal | stuck NoInstruction | csrrci a0,jvt,8
01729573 | in 81 02 03 04 | out 00 00 00 00 | ends exited 0 | stuck NoInstruction | csrrw a0,jvt,t0
30044573 | in 81 02 03 04 | ends stopped Illegal | stuck NoInstruction | what would be a seventh
30200073 | in 81 02 03 04 | ends stopped Illegal | stuck NoInstruction | mret
10200073 | in 81 02 03 04 | ends stopped Illegal | stuck NoInstruction | sret
10500573 | in 81 02 03 04 | ends stopped Illegal | stuck NoInstruction | wfi, with a0 as rd
10501073 | in 81 02 03 04 | out 09 00 00 00 | ends exited 9 | csrrw x0,stvec,x0, which wfi would be with another funct3
3005A073 | in 81 02 03 04 | out 09 00 00 00 | ends exited 9 | stuck ArgumentUnknown | csrrs x0,mstatus,a1
30059573 | in 81 02 03 04 | out 81 02 03 04 | ends exited 129 | stuck ArgumentUnknown | csrrw a0,mstatus,a1
3005E573 | in 81 02 03 04 | out 81 02 03 04 | ends exited 129 | csrrsi a0,mstatus,11
008000EF 00000013 30509073 | out 09 00 00 00 | ends exited 9 | jal ra,8; addi x0,x0,0; csrrw x0,mtvec,ra
008000EF 00000013 30509573 | in 81 02 03 04 | out 81 02 03 04 | ends exited 129 | jal ra,8; addi x0,x0,0; csrrw a0,mtvec,ra
008000EF 00000013 00008093 3050A073 | out 09 00 00 00 | ends exited 9 | jal ra,8; addi x0,x0,0; addi ra,ra,0; csrrs x0,mtvec,ra
008000EF 00000013 00408093 30509073 | out 09 00 00 00 | ends exited 9 | stuck ArgumentUnknown | jal ra,8; addi x0,x0,0; addi ra,ra,4; csrrw x0,mtvec,ra
008000EF 00000013 FF010113 00112023 00014583 30559073 | out 09 00 00 00 | ends exited 9 | stuck ArgumentUnknown | jal ra,8; addi x0,x0,0; addi sp,sp,-16; sw ra,0(sp); lbu a1,0(sp); csrrw x0,mtvec,a1
34002173 | in 00 00 00 10 | out 09 00 00 00 | ends exited 9 | csrrs sp,mscratch,x0
34002173 | in 00 00 F0 0F | out 09 00 00 00 | ends exited 9 | csrrs sp,mscratch,x0
34002173 | in 04 00 00 10 | out 09 00 00 00 | ends exited 9 | stuck StackPointer | csrrs sp,mscratch,x0
34011073 | out 09 00 00 00 | ends exited 9 | csrrw x0,mscratch,sp";

/// Programs as in `PROGRAMS`, that begin as after a reset, or access registers that are no devices.
pub const STARTS: &str = "
# without the registers: csrrs a0,mstatus,x0
30002573 | devices * | in 01 02 03 04 | ends stopped Illegal | stuck NoInstruction
# wfi
10500073 | devices */reset/answer 01 | ends stopped Illegal | stuck NoInstruction
# with them alone: csrrs a0,mstatus,x0; addi a7,x0,93; ecall
30002573 05D00893 00000073 | devices /registers | in 05 00 00 00 | ends exited 5
# what isn't used: addi a0,x0,5; addi a7,x0,93; ecall
00500513 05D00893 00000073 | devices /reset | ends exited 5
# addi a0,sp,0; addi a7,x0,93; ecall
00010513 05D00893 00000073 | devices /reset | ends exited 0 | stuck ArgumentUnknown
00010513 05D00893 00000073 | devices /registers | ends exited 0
# sp is set: lui t0,0x10000; addi sp,t0,0; addi a1,x0,3; addi sp,sp,-16; sw a1,12(sp); lw a0,12(sp); addi a7,x0,93; ecall
100002B7 00028113 00300593 FF010113 00B12623 00C12503 05D00893 00000073 | devices /reset | ends exited 3
# by lui sp,0x10000
10000137 00300593 FF010113 00B12623 00C12503 05D00893 00000073 | devices /reset | ends exited 3
# by lui t0,0x10000; lw sp,0(t0)
100002B7 0002A103 00300593 FF010113 00B12623 00C12503 05D00893 00000073 | devices +/reset | in 00 00 00 10 | ends exited 3
# by csrrs sp,mscratch,x0
34002173 00300593 FF010113 00B12623 00C12503 05D00893 00000073 | devices /reset/registers | in 00 00 00 10 | ends exited 3
# by lui sp,0x100; addi sp,sp,128: its two instructions without relocations
00100137 08010113 00700513 05D00893 00000073 | map 00100000 00100070 00100080 | devices /reset | ends exited 7 | stuck StackPointer
00100137 08010113 00700513 05D00893 00000073 | map 00100000 00100000 00100080 | devices /reset | ends exited 7
# lui t0,0x100; addi sp,t0,128; addi a0,x0,7; addi a7,x0,93; ecall
001002B7 08028113 00700513 05D00893 00000073 | map 00100000 00100070 00100080 | devices /reset | ends exited 7
# outside the stack, and in it: lui sp,0x20000; addi sp,x0,5; lui sp,0x10000; addi sp,sp,-16; addi a0,x0,7; addi a7,x0,93; ecall
20000137 00500113 10000137 FF010113 00700513 05D00893 00000073 | devices /reset | ends exited 7
20000137 00500113 10000137 FF010113 00700513 05D00893 00000073 | devices /registers | ends exited 7 | stuck StackPointer
# outside it alone: lui sp,0x20000; addi a0,x0,7; addi a7,x0,93; ecall
20000137 00700513 05D00893 00000073 | devices /reset | ends exited 7
# lui sp,0xff00; addi a0,x0,7; addi a7,x0,93; ecall
0FF00137 00700513 05D00893 00000073 | devices /registers | ends exited 7
# an address of code: jal sp,4; lui sp,0x10000; addi a0,x0,7; addi a7,x0,93; ecall
0040016F 10000137 00700513 05D00893 00000073 | devices /reset | ends exited 7
0040016F 10000137 00700513 05D00893 00000073 | devices /registers | ends exited 7 | stuck StackPointer
# in the stack, and then outside: lui sp,0x10000; lui sp,0x20000; addi a0,x0,7; addi a7,x0,93; ecall
10000137 20000137 00700513 05D00893 00000073 | devices /reset | ends exited 7 | stuck StackPointer
# before sp is set: addi sp,sp,-16; addi a0,x0,7; addi a7,x0,93; ecall
FF010113 00700513 05D00893 00000073 | devices /reset | ends exited 7 | stuck StackPointer
# lw a0,0(sp)
00012503 | devices /reset | ends stopped BadAccess | stuck StackPointer
# sb x0,0(sp)
00010023 | devices /reset | ends stopped BadAccess | stuck StackPointer
# compressed: c.addi sp,-16; addi a0,x0,7; addi a7,x0,93; ecall
1141 00700513 05D00893 00000073 | devices /reset | flags 1 | ends exited 7 | stuck StackPointer
# c.addi16sp sp,16; addi a0,x0,7; addi a7,x0,93; ecall
6141 00700513 05D00893 00000073 | devices /reset | flags 1 | ends exited 7 | stuck StackPointer
# c.lwsp a0,0(sp)
4502 | devices /reset | flags 1 | ends stopped BadAccess | stuck StackPointer
# cm.push {ra}, -16
B842 | devices /reset | flags 1 | ends stopped BadAccess | stuck StackPointer
# cm.pop {ra}, 16
BA42 | devices /reset | flags 1 | ends stopped BadAccess | stuck StackPointer
# cm.mvsa01 s0,s1, of registers that are set: addi a0,x0,7; addi a1,x0,8; cm.mvsa01 s0,s1; addi a0,s0,0; addi a7,x0,93; ecall
00700513 00800593 AC26 00040513 05D00893 00000073 | devices /reset | flags 1 | ends exited 7
# a push after sp is set: lui sp,0x10000; addi s0,x0,3; cm.push {ra, s0}, -16; lw a0,12(sp); addi a7,x0,93; ecall
10000137 00300413 B852 00C12503 05D00893 00000073 | devices /reset | flags 1 | ends exited 3
# the stack's bytes, by another register, before sp is set: lui t0,0x10000; addi a1,x0,3; sw a1,-4(t0); lw a0,-4(t0); addi a7,x0,93; ecall
100002B7 00300593 FEB2AE23 FFC2A503 05D00893 00000073 | devices /reset | ends exited 3 | stuck ArgumentUnknown
100002B7 00300593 FEB2AE23 FFC2A503 05D00893 00000073 | devices /registers | ends exited 3 | stuck ArgumentUnknown
# and after: lui t0,0x10000; addi sp,t0,-16; addi a1,x0,3; sw a1,-4(t0); lw a0,-4(t0); addi a7,x0,93; ecall
100002B7 FF028113 00300593 FEB2AE23 FFC2A503 05D00893 00000073 | devices /reset | ends exited 3
# a word of code in a device: jal ra,4; lui t0,0x10000; sw ra,0(t0); addi a0,x0,6; addi a7,x0,93; ecall
004000EF 100002B7 0012A023 00600513 05D00893 00000073 | devices * | ends exited 6
# half of it: jal ra,4; lui t0,0x10000; sh ra,0(t0); addi a0,x0,6; addi a7,x0,93; ecall
004000EF 100002B7 00129023 00600513 05D00893 00000073 | devices * | ends exited 6 | stuck BadAddress
# a byte of it
004000EF 100002B7 00128023 00600513 05D00893 00000073 | devices * | ends exited 6 | stuck BadAddress";
