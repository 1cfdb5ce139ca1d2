// Tables of instructions and programs. Words are hexadecimal.

/// Each row: an instruction, what a1 and a2 hold before it, and what a0 holds after it. Data begins with the bytes
/// 1, 2, 3, 0x84, 5, 6, 7, 8 at 0x00100000, and ends before 0x00100020.
pub const RESULTS: &str = "
00C58533 | in FFFFFFFF 00000001 | out 00000000 | add a0,a1,a2
00C58533 | in 7FFFFFFF 00000001 | out 80000000 | add a0,a1,a2
40C58533 | in 00000000 00000001 | out FFFFFFFF | sub a0,a1,a2
40C58533 | in 80000000 00000001 | out 7FFFFFFF | sub a0,a1,a2
00C59533 | in 00000001 0000001F | out 80000000 | sll a0,a1,a2
00C59533 | in 00000003 00000021 | out 00000006 | sll a0,a1,a2
00C5A533 | in 80000000 7FFFFFFF | out 00000001 | slt a0,a1,a2
00C5A533 | in 00000001 FFFFFFFF | out 00000000 | slt a0,a1,a2
00C5B533 | in 7FFFFFFF 80000000 | out 00000001 | sltu a0,a1,a2
00C5B533 | in FFFFFFFF 00000001 | out 00000000 | sltu a0,a1,a2
00C5C533 | in FFFF0000 FF00FF00 | out 00FFFF00 | xor a0,a1,a2
00C5D533 | in 80000000 0000001F | out 00000001 | srl a0,a1,a2
00C5D533 | in 12345678 00000020 | out 12345678 | srl a0,a1,a2
40C5D533 | in 80000000 0000001F | out FFFFFFFF | sra a0,a1,a2
40C5D533 | in 7FFFFFFF 00000021 | out 3FFFFFFF | sra a0,a1,a2
00C5E533 | in F0F0F0F0 0FF00FF0 | out FFF0FFF0 | or a0,a1,a2
00C5F533 | in F0F0F0F0 0FF00FF0 | out 00F000F0 | and a0,a1,a2
02C58533 | in FFFFFFFF FFFFFFFF | out 00000001 | mul a0,a1,a2
02C58533 | in 00010000 00010000 | out 00000000 | mul a0,a1,a2
02C59533 | in 80000000 80000000 | out 40000000 | mulh a0,a1,a2
02C59533 | in FFFFFFFF 00000001 | out FFFFFFFF | mulh a0,a1,a2
02C5A533 | in FFFFFFFF FFFFFFFF | out FFFFFFFF | mulhsu a0,a1,a2
02C5A533 | in 80000000 FFFFFFFF | out 80000000 | mulhsu a0,a1,a2
02C5B533 | in FFFFFFFF FFFFFFFF | out FFFFFFFE | mulhu a0,a1,a2
02C5C533 | in 00000007 FFFFFFFE | out FFFFFFFD | div a0,a1,a2
02C5C533 | in 00000005 00000000 | out FFFFFFFF | div a0,a1,a2
02C5C533 | in 80000000 FFFFFFFF | out 80000000 | div a0,a1,a2
02C5D533 | in FFFFFFFF 00000002 | out 7FFFFFFF | divu a0,a1,a2
02C5D533 | in 00000005 00000000 | out FFFFFFFF | divu a0,a1,a2
02C5E533 | in FFFFFFF9 00000002 | out FFFFFFFF | rem a0,a1,a2
02C5E533 | in 00000005 00000000 | out 00000005 | rem a0,a1,a2
02C5E533 | in 80000000 FFFFFFFF | out 00000000 | rem a0,a1,a2
02C5F533 | in FFFFFFFF 0000000A | out 00000005 | remu a0,a1,a2
02C5F533 | in 00000005 00000000 | out 00000005 | remu a0,a1,a2
7FF58513 | in FFFFFFFF 00000000 | out 000007FE | addi a0,a1,2047
80058513 | in 00000000 00000000 | out FFFFF800 | addi a0,a1,-2048
FFF5A513 | in 80000000 00000000 | out 00000001 | slti a0,a1,-1
0005A513 | in 00000000 00000000 | out 00000000 | slti a0,a1,0
FFF5B513 | in FFFFFFFE 00000000 | out 00000001 | sltiu a0,a1,-1
0015B513 | in 00000000 00000000 | out 00000001 | sltiu a0,a1,1
FFF5C513 | in 0F0F0F0F 00000000 | out F0F0F0F0 | xori a0,a1,-1
5555E513 | in AAAAAAAA 00000000 | out AAAAAFFF | ori a0,a1,1365
F005F513 | in 12345678 00000000 | out 12345600 | andi a0,a1,-256
01F59513 | in 00000003 00000000 | out 80000000 | slli a0,a1,31
01F5D513 | in 80000000 00000000 | out 00000001 | srli a0,a1,31
41F5D513 | in 80000000 00000000 | out FFFFFFFF | srai a0,a1,31
FFFFF537 | in 00000000 00000000 | out FFFFF000 | lui a0,0xFFFFF
00058503 | in 00100000 00000000 | out 00000001 | lb a0,0(a1)
00358503 | in 00100000 00000000 | out FFFFFF84 | lb a0,3(a1)
0035C503 | in 00100000 00000000 | out 00000084 | lbu a0,3(a1)
00059503 | in 00100000 00000000 | out 00000201 | lh a0,0(a1)
00259503 | in 00100000 00000000 | out FFFF8403 | lh a0,2(a1)
0025D503 | in 00100000 00000000 | out 00008403 | lhu a0,2(a1)
0005A503 | in 00100000 00000000 | out 84030201 | lw a0,0(a1)
FFC5A503 | in 00100008 00000000 | out 08070605 | lw a0,-4(a1)
01C5A503 | in 00100000 00000000 | out 00000000 | lw a0,28(a1)
01F5C503 | in 00100000 00000000 | out 00000000 | lbu a0,31(a1)
01E59503 | in 00100000 00000000 | out 00000000 | lh a0,30(a1)";

/// Each row: a branch, what a1 and a2 hold, and the status of an exit: 8 if the branch was taken, and 0 if not.
pub const BRANCHES: &str = "
00C58463 | in 00000005 00000005 | ends exited 8 | beq a1,a2,8
00C58463 | in 00000005 00000006 | ends exited 0 | beq a1,a2,8
00C59463 | in 00000005 00000006 | ends exited 8 | bne a1,a2,8
00C59463 | in FFFFFFFF FFFFFFFF | ends exited 0 | bne a1,a2,8
00C5C463 | in 80000000 7FFFFFFF | ends exited 8 | blt a1,a2,8
00C5C463 | in 00000001 00000001 | ends exited 0 | blt a1,a2,8
00C5D463 | in 00000000 FFFFFFFF | ends exited 8 | bge a1,a2,8
00C5D463 | in 80000000 00000000 | ends exited 0 | bge a1,a2,8
00C5E463 | in 7FFFFFFF 80000000 | ends exited 8 | bltu a1,a2,8
00C5E463 | in FFFFFFFF 00000000 | ends exited 0 | bltu a1,a2,8
00C5F463 | in FFFFFFFF FFFFFFFF | ends exited 8 | bgeu a1,a2,8
00C5F463 | in 00000000 00000001 | ends exited 0 | bgeu a1,a2,8";

/// Each program, and how its run ends.
pub const PROGRAMS: &str = "
# addi sp,sp,-16; addi a0,x0,258; sw a0,12(sp); lbu a1,13(sp); addi a0,a1,0; addi a7,x0,93; ecall
FF010113 10200513 00A12623 00D14583 00058513 05D00893 00000073 | ends exited 1
# addi sp,sp,-4; addi a0,x0,-1; sw a0,0(sp); sh x0,2(sp); sb x0,1(sp); lw a0,0(sp); addi a7,x0,93; ecall
FFC10113 FFF00513 00A12023 00011123 000100A3 00012503 05D00893 00000073 | ends exited ff
# addi sp,sp,-4; lui a0,0x12345; addi a0,a0,0x678; sw a0,0(sp); lbu a0,2(sp); addi a7,x0,93; ecall
FFC10113 12345537 67850513 00A12023 00214503 05D00893 00000073 | ends exited 34
# lui t0,0x100; addi a0,x0,-2; sh a0,30(t0); lhu a0,30(t0); addi a7,x0,93; ecall
001002B7 FFE00513 00A29F23 01E2D503 05D00893 00000073 | ends exited fe
# lui t0,0xFF00; addi sp,t0,0; sb x0,0(t0); lbu a0,0(sp); addi a7,x0,93; ecall
0FF002B7 00028113 00028023 00014503 05D00893 00000073 | ends exited 0
# addi sp,sp,-8; addi a0,x0,-1; sb a0,4(sp); lb a1,4(sp); sltu a0,x0,a1; addi a7,x0,93; ecall
FF810113 FFF00513 00A10223 00410583 00B03533 05D00893 00000073 | ends exited 1
# addi sp,sp,-6; addi t0,sp,-2; addi a0,x0,-1; sw a0,0(t0); lhu a1,2(t0); sltu a0,x0,a1; addi a7,x0,93; ecall
FFA10113 FFE10293 FFF00513 00A2A023 0022D583 00B03533 05D00893 00000073 | ends exited 1
# addi a0,x0,5; div a0,a0,x0; addi a7,x0,93; ecall
00500513 02054533 05D00893 00000073 | ends exited ff
# addi x0,x0,5; lui x0,1; add a0,x0,x0; addi a7,x0,93; ecall
00500013 00001037 00000533 05D00893 00000073 | ends exited 0
# fence; addi a0,x0,7; addi a7,x0,93; ecall
0FF0000F 00700513 05D00893 00000073 | ends exited 7
# jal ra,4; addi t0,ra,0; sltiu a0,t0,1; addi a7,x0,93; ecall
004000EF 00008293 0012B513 05D00893 00000073 | ends exited 0
# jal ra,4; add t0,x0,ra; sltu a0,x0,t0; addi a7,x0,93; ecall
004000EF 001002B3 00503533 05D00893 00000073 | ends exited 1
# jal ra,4; addi a0,x0,3; beq ra,x0,8; bne x0,ra,8; addi a0,x0,4; addi a7,x0,93; ecall
004000EF 00300513 00008463 00101463 00400513 05D00893 00000073 | ends exited 3
# jal ra,4; jal t0,4; addi a0,x0,3; bne ra,ra,8; bne ra,t0,8; addi a0,x0,4; addi a7,x0,93; ecall
004000EF 004002EF 00300513 00109463 00509463 00400513 05D00893 00000073 | ends exited 3
# jal ra,16; addi a0,x0,6; addi a7,x0,93; ecall; addi sp,sp,-4; sw ra,0(sp); lw t0,0(sp); jalr x0,0(t0)
010000EF 00600513 05D00893 00000073 FFC10113 00112023 00012283 00028067 | ends exited 6
# jal ra,16; addi a0,x0,8; addi a7,x0,93; ecall; jalr ra,0(ra)
010000EF 00800513 05D00893 00000073 000080E7 | ends exited 8
# auipc a0,0; addi a7,x0,93; ecall
00000517 05D00893 00000073 | ends stuck 0:1:8 4 ArgumentUnknown
# addi sp,sp,-4; sw x0,0(sp); addi sp,sp,4; addi sp,sp,-4; lw a0,0(sp); addi a7,x0,93; ecall
FFC10113 00012023 00410113 FFC10113 00012503 05D00893 00000073 | ends stuck 0:1:18 4 ArgumentUnknown
# sw x0,-4(sp); addi sp,sp,-4; lw a0,0(sp); addi a7,x0,93; ecall
FE012E23 FFC10113 00012503 05D00893 00000073 | ends stuck 0:1:10 4 ArgumentUnknown
# add a0,a1,x0; addi a0,a0,1; addi a7,x0,93; ecall
00058533 00150513 05D00893 00000073 | ends stuck 0:1:c 4 ArgumentUnknown
# jal ra,4; addi sp,sp,-4; sw ra,0(sp); lb a0,3(sp); addi a7,x0,93; ecall
004000EF FFC10113 00112023 00310503 05D00893 00000073 | ends stuck 0:1:14 4 ArgumentUnknown
# lw a0,0(a1)
0005A503 | ends stuck 0:1:0 1 AddressUnknown
# sb x0,1(a1)
000580A3 | ends stuck 0:1:0 1 AddressUnknown
# jal ra,4; lw a0,0(ra)
004000EF 0000A503 | ends stuck 0:1:4 1 AddressUnknown
# lw a0,2(sp)
00212503 | ends stuck 0:1:0 6 Misaligned
# lh a0,-1(sp)
FFF11503 | ends stuck 0:1:0 6 Misaligned
# lui t0,0x100; sw x0,33(t0)
001002B7 0202A0A3 | ends stuck 0:1:4 6 Misaligned
# lw a0,0(sp)
00012503 | ends stuck 0:1:0 5 BadAddress
# lb a0,0(sp)
00010503 | ends stuck 0:1:0 5 BadAddress
# sh x0,0(x0)
00001023 | ends stuck 0:1:0 5 BadAddress
# lui t0,0x100; lw a0,32(t0)
001002B7 0202A503 | ends stuck 0:1:4 5 BadAddress
# lui t0,0x100; lbu a0,-1(t0)
001002B7 FFF2C503 | ends stuck 0:1:4 5 BadAddress
# lui t0,0xFF00; lb a0,-1(t0)
0FF002B7 FFF28503 | ends stuck 0:1:4 5 BadAddress
# lui t0,0x10; lw a0,0(t0)
000102B7 0002A503 | ends stuck 0:1:4 5 BadAddress
# beq a0,x0,8
00050463 | ends stuck 0:1:0 2 ConditionUnknown
# blt a0,x0,8
00054463 | ends stuck 0:1:0 2 ConditionUnknown
# jal ra,4; addi t0,x0,1; beq ra,t0,8
004000EF 00100293 00508463 | ends stuck 0:1:8 2 ConditionUnknown
# jal ra,4; bltu x0,ra,8
004000EF 00106463 | ends stuck 0:1:4 2 ConditionUnknown
# jal ra,64
040000EF | ends stuck 0:1:40 8 NoInstruction
# jalr x0,0(a1)
00058067 | ends stuck 0:1:0 3 TargetUnknown
# jalr x0,0(x0)
00000067 | ends stuck 0:1:0 3 TargetUnknown
# jal ra,4; jalr x0,4(ra)
004000EF 00408067 | ends stuck 0:1:4 3 TargetUnknown
# jal ra,4; addi sp,sp,-4; sw ra,0(sp); sb x0,1(sp); lw ra,0(sp); jalr x0,0(ra)
004000EF FFC10113 00112023 000100A3 00012083 00008067 | ends stuck 0:1:14 3 TargetUnknown
# addi sp,sp,4
00410113 | ends stuck 0:1:0 7 StackPointer
# addi sp,x0,0
00000113 | ends stuck 0:1:0 7 StackPointer
# add sp,a1,x0
00058133 | ends stuck 0:1:0 7 StackPointer
# jal sp,4
0040016F | ends stuck 0:1:0 7 StackPointer
# lui t0,0xFF00; addi sp,t0,0; addi sp,sp,-1
0FF002B7 00028113 FFF10113 | ends stuck 0:1:8 7 StackPointer
# lui t0,0x10000; add sp,t0,x0; addi a0,x0,1; addi a7,x0,93; ecall
100002B7 00028133 00100513 05D00893 00000073 | ends exited 1
# ebreak
00100073 | ends stuck 0:1:0 8 NoInstruction
# .word 0
00000000 | ends stuck 0:1:0 8 NoInstruction
# csrrw x0,a0
01751073 | ends stuck 0:1:0 8 NoInstruction
# beq x0,x0,64
04000063 | ends stuck 0:1:40 8 NoInstruction
# jal x0,2
0020006F | ends stuck 0:1:0 8 NoInstruction
# ecall
00000073 | ends stuck 0:1:0 4 ArgumentUnknown
# addi a7,x0,93; ecall
05D00893 00000073 | ends stuck 0:1:4 4 ArgumentUnknown
# addi a7,x0,94; ecall
05E00893 00000073 | ends stuck 0:1:4 9 UnknownCall
# jal a7,4; ecall
004008EF 00000073 | ends stuck 0:1:4 4 ArgumentUnknown
# addi a0,x0,3; addi a7,x0,93; ecall, for so many steps
00300513 05D00893 00000073 | steps 0 | ends spent
00300513 05D00893 00000073 | steps 2 | ends spent
00300513 05D00893 00000073 | steps 3 | ends exited 3
00300513 05D00893 00000073 | steps 4 | ends exited 3";

/// Each program, and how its run ends, for pages that hold numbers and other bytes, and for a stack pointer that falls
/// and rises. Data has 32 bytes, and the stack 1 MiB.
pub const PAGES: &str = "
# lui t0,0x100; sb s0,16(t0); lbu a0,3(t0); addi a7,x0,93; ecall
001002B7 00828823 0032C503 05D00893 00000073 | ends exited 84
# lui t0,0x100; sb s0,16(t0); lbu a0,17(t0); addi a7,x0,93; ecall
001002B7 00828823 0112C503 05D00893 00000073 | ends exited 0
# lui t0,0x100; sb s0,16(t0); lbu a0,16(t0); addi a7,x0,93; ecall
001002B7 00828823 0102C503 05D00893 00000073 | ends stuck 0:1:10 4 ArgumentUnknown
# lui t0,0x100; addi t1,x0,6; sb s0,16(t0); sb t1,16(t0); lbu a0,16(t0); addi a7,x0,93; ecall
001002B7 00600313 00828823 00628823 0102C503 05D00893 00000073 | ends exited 6
# jal ra,4; lui t0,0x100; sw ra,0(t0); lbu a0,4(t0); addi a7,x0,93; ecall
004000EF 001002B7 0012A023 0042C503 05D00893 00000073 | ends exited 5
# jal ra,4; lui t0,0x100; sw ra,0(t0); lbu a0,0(t0); addi a7,x0,93; ecall
004000EF 001002B7 0012A023 0002C503 05D00893 00000073 | ends stuck 0:1:14 4 ArgumentUnknown
# jal ra,4; lui t0,0x100; addi t1,x0,7; sw ra,0(t0); sw t1,0(t0); lw a0,0(t0); addi a7,x0,93; ecall
004000EF 001002B7 00700313 0012A023 0062A023 0002A503 05D00893 00000073 | ends exited 7
# lui t0,0x100; addi t1,x0,8; sb t1,31(t0); lbu a0,31(t0); addi a7,x0,93; ecall
001002B7 00800313 00628FA3 01F2C503 05D00893 00000073 | ends exited 8
# addi t1,x0,9; addi sp,sp,-4; sb t1,3(sp); lbu a0,3(sp); addi a7,x0,93; ecall
00900313 FFC10113 006101A3 00314503 05D00893 00000073 | ends exited 9
# lui t1,0x100; addi t2,x0,10; sub sp,sp,t1; sw t2,0(sp); lw a0,0(sp); addi a7,x0,93; ecall
00100337 00A00393 40610133 00712023 00012503 05D00893 00000073 | ends exited a
# lui t1,0x100; addi t2,x0,10; sub sp,sp,t1; sw t2,0(sp); add sp,sp,t1; sub sp,sp,t1; lw a0,0(sp); addi a7,x0,93; ecall
00100337 00A00393 40610133 00712023 00610133 40610133 00012503 05D00893 00000073 | ends stuck 0:1:20 4 ArgumentUnknown
# lui t1,1; addi t2,x0,11; addi sp,sp,-16; sw t2,0(sp); sub sp,sp,t1; sw t2,0(sp); add sp,sp,t1; lw a0,0(sp); addi a7,x0,93; ecall
00001337 00B00393 FF010113 00712023 40610133 00712023 00610133 00012503 05D00893 00000073 | ends exited b
# lui t1,1; addi t2,x0,12; sub sp,sp,t1; sub sp,sp,t1; sw t2,0(sp); add sp,sp,t1; sub sp,sp,t1; lw a0,0(sp); addi a7,x0,93; ecall
00001337 00C00393 40610133 40610133 00712023 00610133 40610133 00012503 05D00893 00000073 | ends stuck 0:1:24 4 ArgumentUnknown
# addi t2,x0,13; addi sp,sp,-16; sw t2,8(sp); sw t2,4(sp); addi sp,sp,8; addi sp,sp,-8; lw a0,8(sp); addi a7,x0,93; ecall
00D00393 FF010113 00712423 00712223 00810113 FF810113 00812503 05D00893 00000073 | ends exited d
# addi t2,x0,13; addi sp,sp,-16; sw t2,8(sp); sw t2,4(sp); addi sp,sp,8; addi sp,sp,-8; lw a0,4(sp); addi a7,x0,93; ecall
00D00393 FF010113 00712423 00712223 00810113 FF810113 00412503 05D00893 00000073 | ends stuck 0:1:20 4 ArgumentUnknown";

/// Each program, and how its run ends, for a stack pointer that moves over all pages of the stack, and for bytes that
/// are written where there were others before sp rose.
pub const STACKS: &str = "
# lui t1,1; addi t2,x0,256; sub sp,sp,t1; sw t2,0(sp); addi t2,t2,-1; bne t2,x0,-12; addi t2,t2,1; lw a0,0(sp); bne a0,t2,20; add sp,sp,t1; addi a1,t2,-256; bne a1,x0,-20; addi a0,x0,17; addi a7,x0,93; ecall
00001337 10000393 40610133 00712023 FFF38393 FE039AE3 00138393 00012503 00751A63 00610133 F0038593 FE0596E3 01100513 05D00893 00000073 | steps 3000 | ends exited 11
# lui t1,1; lui t3,0x100; addi t2,x0,256; sub sp,sp,t1; sw t2,0(sp); addi t2,t2,-1; bne t2,x0,-12; add sp,sp,t3; sub sp,sp,t3; sw t1,4(sp); lw a0,0(sp); addi a7,x0,93; ecall
00001337 00100E37 10000393 40610133 00712023 FFF38393 FE039AE3 01C10133 41C10133 00612223 00012503 05D00893 00000073 | steps 3000 | ends stuck 0:1:30 4 ArgumentUnknown
# lui t1,1; lui t3,0x100; addi t2,x0,256; sub sp,sp,t1; sw t2,0(sp); addi t2,t2,-1; bne t2,x0,-12; add sp,sp,t3; sub sp,sp,t3; sw t1,0(sp); add t3,sp,t1; lw a0,0(t3); addi a7,x0,93; ecall
00001337 00100E37 10000393 40610133 00712023 FFF38393 FE039AE3 01C10133 41C10133 00612023 00610E33 000E2503 05D00893 00000073 | steps 3000 | ends stuck 0:1:34 4 ArgumentUnknown
# addi t2,x0,14; addi sp,sp,-256; sw t2,0(sp); sw t2,4(sp); sw t2,64(sp); addi sp,sp,256; addi sp,sp,-256; sw t2,0(sp); lw a0,0(sp); addi a7,x0,93; ecall
00E00393 F0010113 00712023 00712223 04712023 10010113 F0010113 00712023 00012503 05D00893 00000073 | ends exited e
# addi t2,x0,14; addi sp,sp,-256; sw t2,0(sp); sw t2,4(sp); sw t2,64(sp); addi sp,sp,256; addi sp,sp,-256; sw t2,0(sp); lw a0,4(sp); addi a7,x0,93; ecall
00E00393 F0010113 00712023 00712223 04712023 10010113 F0010113 00712023 00412503 05D00893 00000073 | ends stuck 0:1:28 4 ArgumentUnknown
# addi t2,x0,14; addi sp,sp,-256; sw t2,0(sp); sw t2,4(sp); sw t2,64(sp); addi sp,sp,256; addi sp,sp,-256; sw t2,0(sp); lw a0,64(sp); addi a7,x0,93; ecall
00E00393 F0010113 00712023 00712223 04712023 10010113 F0010113 00712023 04012503 05D00893 00000073 | ends stuck 0:1:28 4 ArgumentUnknown
# addi t2,x0,14; addi sp,sp,-256; sw t2,0(sp); sw t2,4(sp); sw t2,64(sp); addi sp,sp,256; addi sp,sp,-256; sw t2,0(sp); sw t2,68(sp); lw a0,64(sp); addi a7,x0,93; ecall
00E00393 F0010113 00712023 00712223 04712023 10010113 F0010113 00712023 04712223 04012503 05D00893 00000073 | ends stuck 0:1:2c 4 ArgumentUnknown
# addi a0,x0,15; jal ra,12; addi a7,x0,93; ecall; addi sp,sp,-256; sw a0,0(sp); sw a0,4(sp); addi sp,sp,256; addi sp,sp,-256; sw ra,0(sp); lw a1,0(sp); jalr x0,0(a1)
00F00513 00C000EF 05D00893 00000073 F0010113 00A12023 00A12223 10010113 F0010113 00112023 00012583 00058067 | ends exited f
# addi a0,x0,15; jal ra,12; addi a7,x0,93; ecall; addi sp,sp,-256; sw a0,0(sp); sw a0,4(sp); addi sp,sp,256; addi sp,sp,-256; sw ra,0(sp); lw a0,4(sp); jalr x0,0(ra)
00F00513 00C000EF 05D00893 00000073 F0010113 00A12023 00A12223 10010113 F0010113 00112023 00412503 00008067 | ends stuck 0:1:c 4 ArgumentUnknown
# jal ra,4; addi t2,x0,16; lui t1,1; sub sp,sp,t1; addi sp,sp,-16; sw ra,12(sp); sb t2,13(sp); sb t2,16(sp); lbu a0,13(sp); addi a7,x0,93; ecall
004000EF 01000393 00001337 40610133 FF010113 00112623 007106A3 00710823 00D14503 05D00893 00000073 | ends exited 10
# jal ra,4; addi t2,x0,16; lui t1,1; sub sp,sp,t1; addi sp,sp,-16; sw ra,12(sp); sb t2,13(sp); sb t2,16(sp); lbu a0,16(sp); addi a7,x0,93; ecall
004000EF 01000393 00001337 40610133 FF010113 00112623 007106A3 00710823 01014503 05D00893 00000073 | ends exited 10
# jal ra,4; addi t2,x0,16; lui t1,1; sub sp,sp,t1; addi sp,sp,-16; sw ra,12(sp); sb t2,13(sp); sb t2,16(sp); lbu a0,15(sp); addi a7,x0,93; ecall
004000EF 01000393 00001337 40610133 FF010113 00112623 007106A3 00710823 00F14503 05D00893 00000073 | ends stuck 0:1:28 4 ArgumentUnknown
# jal ra,4; addi t2,x0,16; lui t1,1; sub sp,sp,t1; addi sp,sp,-16; sw ra,12(sp); sb t2,13(sp); sb t2,16(sp); lbu a0,17(sp); addi a7,x0,93; ecall
004000EF 01000393 00001337 40610133 FF010113 00112623 007106A3 00710823 01114503 05D00893 00000073 | ends stuck 0:1:28 4 ArgumentUnknown";

/// Each program, and how its run ends, after forty bytes of input were read across the ends of strips and of a page.
pub const ACROSS: &str = "
# lbu a0,67(sp); addi a7,x0,93; ecall
04314503 05D00893 00000073 | ends exited 4e
# lbu a0,63(sp); addi a7,x0,93; ecall
03F14503 05D00893 00000073 | ends exited 4a
# lbu a0,64(sp); addi a7,x0,93; ecall
04014503 05D00893 00000073 | ends exited 4b
# lbu a0,28(sp); addi a7,x0,93; ecall
01C14503 05D00893 00000073 | ends exited 61
# lbu a0,68(sp); addi a7,x0,93; ecall
04414503 05D00893 00000073 | ends stuck 0:1:28 4 ArgumentUnknown
# lbu a0,27(sp); addi a7,x0,93; ecall
01B14503 05D00893 00000073 | ends stuck 0:1:28 4 ArgumentUnknown";

/// Each program, its input, what it writes to the output and to the output for errors, and how its run ends.
pub const CALLS: &str = "
# addi a0,x0,1; lui a1,0x100; addi a2,x0,3; addi a7,x0,64; ecall; addi a7,x0,93; ecall
00100513 001005B7 00300613 04000893 00000073 05D00893 00000073 | out 01 02 03 | ends exited 3
# addi a0,x0,2; lui a1,0x100; addi a2,x0,2; addi a7,x0,64; ecall; addi a7,x0,93; ecall
00200513 001005B7 00200613 04000893 00000073 05D00893 00000073 | err 01 02 | ends exited 2
# addi a0,x0,1; addi a2,x0,0; addi a7,x0,64; ecall; addi a7,x0,93; ecall
00100513 00000613 04000893 00000073 05D00893 00000073 | ends exited 0
# addi a0,x0,0; addi a1,x0,0; addi a2,x0,1; addi a7,x0,64; ecall
00000513 00000593 00100613 04000893 00000073 | ends stuck 0:1:10 9 UnknownCall
# addi a0,x0,3; addi a2,x0,0; addi a7,x0,64; ecall
00300513 00000613 04000893 00000073 | ends stuck 0:1:c 9 UnknownCall
# addi a0,x0,1; addi a1,x0,0; addi a2,x0,1; addi a7,x0,64; ecall
00100513 00000593 00100613 04000893 00000073 | ends stuck 0:1:10 5 BadAddress
# addi a0,x0,1; lui a1,0x100; addi a2,x0,33; addi a7,x0,64; ecall
00100513 001005B7 02100613 04000893 00000073 | ends stuck 0:1:10 5 BadAddress
# addi a0,x0,5; addi a7,x0,63; ecall
00500513 03F00893 00000073 | ends stuck 0:1:8 4 ArgumentUnknown
# addi a0,x0,5; addi a2,x0,1; addi a7,x0,63; ecall
00500513 00100613 03F00893 00000073 | ends stuck 0:1:c 4 ArgumentUnknown
# addi a0,x0,1; addi a1,sp,-4; addi a2,x0,4; addi a7,x0,64; ecall
00100513 FFC10593 00400613 04000893 00000073 | ends stuck 0:1:10 4 ArgumentUnknown
# addi a0,x0,1; addi a1,x0,0; addi a2,x0,1; addi a7,x0,63; ecall
00100513 00000593 00100613 03F00893 00000073 | ends stuck 0:1:10 9 UnknownCall
# addi a0,x0,0; addi a1,x0,0; addi a2,x0,1; addi a7,x0,63; ecall
00000513 00000593 00100613 03F00893 00000073 | ends stuck 0:1:10 5 BadAddress
# addi a0,x0,0; addi a2,x0,0; addi a7,x0,63; ecall; addi a7,x0,93; ecall
00000513 00000613 03F00893 00000073 05D00893 00000073 | in 61 62 | ends exited 0
# addi a0,x0,0; lui a1,0x100; addi a2,x0,4; addi a7,x0,63; ecall; lbu a0,2(a1); addi a7,x0,93; ecall
00000513 001005B7 00400613 03F00893 00000073 0025C503 05D00893 00000073 | in 61 62 | ends exited 3
# addi a0,x0,0; addi a1,sp,-4; addi a2,x0,4; addi a7,x0,63; ecall; addi sp,sp,-4; lbu a0,0(sp); addi a7,x0,93; ecall
00000513 FFC10593 00400613 03F00893 00000073 FFC10113 00014503 05D00893 00000073 | in 61 62 63 64 | ends stuck 0:1:20 4 ArgumentUnknown
# addi a2,x0,1; lui a1,0x100; addi a7,x0,63; addi a0,x0,0; ecall; addi a0,x0,0; ecall; lbu a0,0(a1); addi a7,x0,93; ecall
00100613 001005B7 03F00893 00000513 00000073 00000513 00000073 0005C503 05D00893 00000073 | in 78 79 | ends exited 79
# addi a0,x0,0; lui a1,0x100; addi a2,x0,4; addi a7,x0,63; ecall; addi a2,a0,0; addi a0,x0,1; addi a7,x0,64; ecall; addi a7,x0,93; ecall
00000513 001005B7 00400613 03F00893 00000073 00050613 00100513 04000893 00000073 05D00893 00000073 | in 61 62 | out 61 62 | ends exited 2
# addi a0,x0,0; lui a1,0x100; addi a2,x0,4; addi a7,x0,63; ecall; addi a2,a0,0; addi a0,x0,1; addi a7,x0,64; ecall; addi a7,x0,93; ecall
00000513 001005B7 00400613 03F00893 00000073 00050613 00100513 04000893 00000073 05D00893 00000073 | in 61 62 63 64 65 66 | out 61 62 63 64 | ends exited 4
# addi a0,x0,0; lui a1,0x100; addi a2,x0,4; addi a7,x0,63; ecall; addi a2,a0,0; addi a0,x0,1; addi a7,x0,64; ecall; addi a7,x0,93; ecall
00000513 001005B7 00400613 03F00893 00000073 00050613 00100513 04000893 00000073 05D00893 00000073 | ends exited 0
# a buffer over a page's end: lui t1,1; sub sp,sp,t1; addi sp,sp,-8; addi a0,x0,0; addi a1,sp,4; addi a2,x0,8; addi a7,x0,63; ecall; addi a0,x0,1; addi a7,x0,64; ecall; lbu a0,8(sp); addi a7,x0,93; ecall
00001337 40610133 FF810113 00000513 00410593 00800613 03F00893 00000073 00100513 04000893 00000073 00814503 05D00893 00000073 | in 61 62 63 64 65 66 67 68 | out 61 62 63 64 65 66 67 68 | ends exited 65
# the byte 1 to the output, and then to the output for errors: addi a0,x0,1; lui a1,0x100; addi a2,x0,1; addi a7,x0,64; ecall; addi a0,x0,2; ecall; addi a7,x0,93; ecall
00100513 001005B7 00100613 04000893 00000073 00200513 00000073 05D00893 00000073 | out 01 | err 01 | ends exited 1
# the same over a console whose first call fails, or whose second
00100513 001005B7 00100613 04000893 00000073 00200513 00000073 05D00893 00000073 | fails 0 | ends fault
00100513 001005B7 00100613 04000893 00000073 00200513 00000073 05D00893 00000073 | fails 1 | out 01 | ends fault";

/// Programs of compressed code, and how they end.
pub const COMPRESSED: &str = "
# .half 0
0000 | ends stuck 0:1:0 8 NoInstruction
# c.li a0,3; cm.jt 0
450D A002 | ends stuck 0:1:2 8 NoInstruction
# c.nop; c.ebreak
0001 9002 | ends stuck 0:1:2 8 NoInstruction
# c.nop; csrrw x0,a0
0001 01751073 | ends stuck 0:1:2 8 NoInstruction
# c.j into the word behind it
A011 00000013 | ends stuck 0:1:0 8 NoInstruction
# c.j 64
A081 | ends stuck 0:1:40 8 NoInstruction
# c.lw a0,0(a1)
4188 | ends stuck 0:1:0 1 AddressUnknown
# c.beqz a0,0
C101 | ends stuck 0:1:0 2 ConditionUnknown
# c.jr a0
8502 | ends stuck 0:1:0 3 TargetUnknown
# c.jal 2; c.addi sp,-16; c.swsp ra,12(sp); c.lwsp a0,12(sp); c.beqz a0,2; c.lwsp ra,12(sp); c.addi sp,16; c.jr ra, to the first c.addi
2009 1141 C606 4532 C109 40B2 0141 8082 | steps 20 | ends spent
# c.addi sp,16
0141 | ends stuck 0:1:0 7 StackPointer";

/// Each program, and the results of its steps, one after another.
pub const STEPS: &str = "
# a read of two bytes to data, a write of them, and ebreak: addi a0,x0,0; lui a1,0x100; addi a2,x0,2; addi a7,x0,63; ecall; addi a0,x0,1; addi a7,x0,64; ecall; ebreak
words 00000513 001005B7 00200613 03F00893 00000073 00100513 04000893 00000073 00100073 | in 78 79 7A | answers done; done; done; done; read 2; done; done; wrote 1 [120, 121]; stuck 0:1:20 8 NoInstruction; stuck 0:1:20 8 NoInstruction
# addi a0,x0,1; addi sp,sp,4, above the stack
words 00100513 00410113 | answers done; stuck 0:1:4 7 StackPointer; stuck 0:1:4 7 StackPointer; stuck 0:1:4 7 StackPointer
# addi a0,x0,3; addi a7,x0,93; ecall
words 00300513 05D00893 00000073 | answers done; done; exited 3; exited 3
# c.li s0,1; cm.push {ra, s0},-16; c.li s0,2; cm.pop {ra, s0},16; cm.mva01s s0,s0; cm.mvsa01 s1,s0; addi a7,x0,93; ecall
words 4405 B852 4409 BA52 AC62 ACA2 05D00893 00000073 | flags 1 | answers done; done; done; done; done; done; done; exited 1; exited 1
# a push that would be stuck for another cause if sp had moved: lui t0,0xFF00; addi sp,t0,18; cm.push {ra},-16
words 0FF002B7 01228113 B842 | flags 1 | answers done; done; stuck 0:1:8 6 Misaligned; stuck 0:1:8 6 Misaligned; stuck 0:1:8 6 Misaligned
# lui t0,0xFF00; c.mv sp,t0; cm.push {ra},-16
words 0FF002B7 8116 B842 | flags 1 | answers done; done; stuck 0:1:6 7 StackPointer; stuck 0:1:6 7 StackPointer
# pops that would be stuck for another cause if sp had moved: c.li ra,0; cm.push {ra},-16; cm.popret {ra},16; or cm.popretz {ra},16
words 4081 B842 BE42 | flags 1 | answers done; done; stuck 0:1:4 3 TargetUnknown; stuck 0:1:4 3 TargetUnknown; stuck 0:1:4 3 TargetUnknown
words 4081 B842 BC42 | flags 1 | answers done; done; stuck 0:1:4 3 TargetUnknown; stuck 0:1:4 3 TargetUnknown; stuck 0:1:4 3 TargetUnknown
# cm.pop {ra},16
words BA42 | flags 1 | answers stuck 0:1:0 5 BadAddress; stuck 0:1:0 5 BadAddress";

/// Programs as in `PAGES`, in maps of their own: where data lie, and where the stack begins and ends.
pub const MAPS: &str = "
# RAM of 128 bytes, of which the stack has 16: lui t0,0x20000; addi t1,x0,5; sw t1,0(t0); sw t1,28(t0); lw a0,0(t0); lw a1,28(t0); add a0,a0,a1; addi a7,x0,93; ecall
200002B7 00500313 0062A023 0062AE23 0002A503 01C2A583 00B50533 05D00893 00000073 | map 20000000 20000070 20000080 | ends exited a
# lui t0,0x20000; addi sp,t0,112; addi t1,x0,6; sw t1,0(sp); lui t2,0x20000; sw t1,124(t2); lw a0,0(sp); lw a1,124(t2); add a0,a0,a1; addi a7,x0,93; ecall
200002B7 07028113 00600313 00612023 200003B7 0663AE23 00012503 07C3A583 00B50533 05D00893 00000073 | map 20000000 20000070 20000080 | ends exited c
# of 48, where data end at the stack: lui t0,0x20000; addi t1,x0,5; sw t1,0(t0); sw t1,28(t0); lw a0,0(t0); lw a1,28(t0); add a0,a0,a1; addi a7,x0,93; ecall
200002B7 00500313 0062A023 0062AE23 0002A503 01C2A583 00B50533 05D00893 00000073 | map 20000000 20000020 20000030 | ends exited a
# lui t0,0x20000; addi sp,t0,32; addi t1,x0,6; sw t1,0(sp); lui t2,0x20000; sw t1,44(t2); lw a0,0(sp); lw a1,44(t2); add a0,a0,a1; addi a7,x0,93; ecall
200002B7 02028113 00600313 00612023 200003B7 0263A623 00012503 02C3A583 00B50533 05D00893 00000073 | map 20000000 20000020 20000030 | ends exited c
# of 2 KiB: lui t0,0x20000; addi t1,x0,5; sw t1,0(t0); sw t1,28(t0); lw a0,0(t0); lw a1,28(t0); add a0,a0,a1; addi a7,x0,93; ecall
200002B7 00500313 0062A023 0062AE23 0002A503 01C2A583 00B50533 05D00893 00000073 | map 20000000 20000400 20000800 | ends exited a
# lui t0,0x20000; addi sp,t0,1024; addi t1,x0,6; sw t1,0(sp); lui t2,0x20000; sw t1,2044(t2); lw a0,0(sp); lw a1,2044(t2); add a0,a0,a1; addi a7,x0,93; ecall
200002B7 40028113 00600313 00612023 200003B7 7E63AE23 00012503 7FC3A583 00B50533 05D00893 00000073 | map 20000000 20000400 20000800 | ends exited c
# of 520 KiB: lui t0,0x20000; addi t1,x0,5; sw t1,0(t0); sw t1,28(t0); lw a0,0(t0); lw a1,28(t0); add a0,a0,a1; addi a7,x0,93; ecall
200002B7 00500313 0062A023 0062AE23 0002A503 01C2A583 00B50533 05D00893 00000073 | map 20000000 20081000 20082000 | ends exited a
# lui t0,0x20081; addi sp,t0,0; addi t1,x0,6; sw t1,0(sp); lui t2,0x20082; sw t1,-4(t2); lw a0,0(sp); lw a1,-4(t2); add a0,a0,a1; addi a7,x0,93; ecall
200812B7 00028113 00600313 00612023 200823B7 FE63AE23 00012503 FFC3A583 00B50533 05D00893 00000073 | map 20000000 20081000 20082000 | ends exited c
# of 16 MiB: lui t0,0x20000; addi t1,x0,5; sw t1,0(t0); sw t1,28(t0); lw a0,0(t0); lw a1,28(t0); add a0,a0,a1; addi a7,x0,93; ecall
200002B7 00500313 0062A023 0062AE23 0002A503 01C2A583 00B50533 05D00893 00000073 | map 20000000 20800000 21000000 | ends exited a
# lui t0,0x20800; addi sp,t0,0; addi t1,x0,6; sw t1,0(sp); lui t2,0x21000; sw t1,-4(t2); lw a0,0(sp); lw a1,-4(t2); add a0,a0,a1; addi a7,x0,93; ecall
208002B7 00028113 00600313 00612023 210003B7 FE63AE23 00012503 FFC3A583 00B50533 05D00893 00000073 | map 20000000 20800000 21000000 | ends exited c
# before data: lui t2,0x20000; lbu a0,-1(t2)
200003B7 FFF3C503 | map 20000000 20000070 20000080 | ends stuck 0:1:4 5 BadAddress
# behind data: lui t2,0x20000; lbu a0,32(t2)
200003B7 0203C503 | map 20000000 20000070 20000080 | ends stuck 0:1:4 5 BadAddress
# before the stack: lui t2,0x20000; lbu a0,111(t2)
200003B7 06F3C503 | map 20000000 20000070 20000080 | ends stuck 0:1:4 5 BadAddress
# behind the stack: lui t2,0x20000; lbu a0,128(t2)
200003B7 0803C503 | map 20000000 20000070 20000080 | ends stuck 0:1:4 5 BadAddress
# lui t2,0x20000; lbu a0,-1(t2)
200003B7 FFF3C503 | map 20000000 20800000 21000000 | ends stuck 0:1:4 5 BadAddress
# lui t2,0x20000; lbu a0,32(t2)
200003B7 0203C503 | map 20000000 20800000 21000000 | ends stuck 0:1:4 5 BadAddress
# lui t2,0x20800; lbu a0,-1(t2)
208003B7 FFF3C503 | map 20000000 20800000 21000000 | ends stuck 0:1:4 5 BadAddress
# lui t2,0x21000; lbu a0,0(t2)
210003B7 0003C503 | map 20000000 20800000 21000000 | ends stuck 0:1:4 5 BadAddress
# a buffer from data into the stack: addi a0,x0,1; lui a1,0x20000; addi a1,a1,28; addi a2,x0,8; addi a7,x0,64; ecall
00100513 200005B7 01C58593 00800613 04000893 00000073 | map 20000000 20000020 20000030 | ends stuck 0:1:14 5 BadAddress
# a frame of the whole stack: addi ra,x0,7; cm.push {ra, s0},-16; addi ra,x0,0; cm.pop {ra, s0},16; addi a0,ra,0; addi a7,x0,93; ecall
00700093 B852 00000093 BA52 00008513 05D00893 00000073 | flags 1 | map 20000000 20000070 20000080 | ends exited 7
# one more: cm.push {ra, s0},-16; cm.push {ra},-16
B852 B842 | flags 1 | map 20000000 20000070 20000080 | ends stuck 0:1:2 7 StackPointer";

/// Maps, and whether the 32 bytes of data of an object end in front of the stack, or at its low end.
pub const DATA_ENDS: &str = "
map 20000000 20000010 20000020 | ends object 0 TooLarge
map 20000000 20000020 20000030 | ends fit
map 20000000 20000030 20000040 | ends fit";
