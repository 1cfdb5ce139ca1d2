// A table of programs with relocations. Words are hexadecimal.

/// Each program, its relocations of code and of data, and how its run ends within `steps` steps. A relocation has three
/// words: its offset, its symbol and type, and its addend. Symbol 1 is the code's first byte, 2 the data's, 3 the
/// code's second word, and 5 is weak, and not defined.
pub const RELOCATED: &str = "
# lui t0,%hi(data+3); lbu a0,%lo(data+3)(t0)
000002B7 0002C503 05D00893 00000073 | relocs 00000000 0000021A 00000003 00000004 0000021B 00000003 | steps 4 | ends exited 84
# lui t0,%hi(data+4); sw x0,%lo(data+4)(t0); lbu a0,%lo(data+5)(t0)
000002B7 0002A023 0002C503 05D00893 00000073 | relocs 00000000 0000021A 00000004 00000004 0000021C 00000004 00000008 0000021B 00000005 | steps 5 | ends exited 0
# lui t0,%hi(code+16); addi t0,t0,%lo(code+16); jalr x0,0(t0); ebreak; addi a0,x0,6
000002B7 00028293 00028067 00100073 00600513 05D00893 00000073 | relocs 00000000 0000011A 00000010 00000004 0000011B 00000010 | steps 6 | ends exited 6
# lui t0,%hi(code+12); jalr ra,%lo(code+12)(t0); ebreak; addi a0,x0,7
000002B7 000280E7 00100073 00700513 05D00893 00000073 | relocs 00000000 0000011A 0000000C 00000004 0000011B 0000000C | steps 5 | ends exited 7
# lui t0,%hi(code+12); jalr ra,%lo(code+16)(t0)
000002B7 000280E7 | relocs 00000000 0000011A 0000000C 00000004 0000011B 00000010 | steps 2 | ends stuck 0:1:4 3 TargetUnknown
# addi t0,x0,0; jalr ra,%lo(code+12)(t0)
00000293 000280E7 | relocs 00000004 0000011B 0000000C | steps 2 | ends stuck 0:1:4 3 TargetUnknown
# lui t0,%hi(code+12); addi a0,t0,0
000002B7 00028513 05D00893 00000073 | relocs 00000000 0000011A 0000000C | steps 4 | ends stuck 0:1:c 4 ArgumentUnknown
# lui t0,%hi(code+12); lw a0,%lo(code+12)(t0)
000002B7 0002A503 | relocs 00000000 0000011A 0000000C 00000004 0000011B 0000000C | steps 2 | ends stuck 0:1:4 1 AddressUnknown
# lui t0,%hi(w+8); addi a0,t0,%lo(w+8)
000002B7 00028513 05D00893 00000073 | relocs 00000000 0000051A 00000008 00000004 0000051B 00000008 | steps 4 | ends exited 8
# auipc t0,%pcrel_hi(data+3); lbu a0,%pcrel_lo(code)(t0)
00000297 0002C503 05D00893 00000073 | relocs 00000000 00000217 00000003 00000004 00000118 00000000 | steps 4 | ends exited 84
# auipc t0,%pcrel_hi(data+4); sb x0,%pcrel_lo(code)(t0); lui t0,%hi(data); lbu a0,4(t0)
00000297 00028023 000002B7 0042C503 05D00893 00000073 | relocs 00000000 00000217 00000004 00000004 00000119 00000000 00000008 0000021A 00000000 | steps 6 | ends exited 0
# auipc t0,%pcrel_hi(data+3); auipc t1,%pcrel_hi(data); lbu a0,%pcrel_lo(code+4)(t1)
00000297 00000317 00034503 05D00893 00000073 | relocs 00000000 00000217 00000003 00000004 00000217 00000000 00000008 00000318 00000000 | steps 5 | ends exited 1
# auipc t0,%pcrel_hi(data+3); auipc t1,%pcrel_hi(data); lbu a0,%pcrel_lo(code)(t1)
00000297 00000317 00034503 | relocs 00000000 00000217 00000003 00000004 00000217 00000000 00000008 00000118 00000000 | steps 3 | ends stuck 0:1:8 1 AddressUnknown
# auipc t0,%pcrel_hi(code+12); jalr ra,%pcrel_lo(code)(t0); ebreak; addi a0,x0,9
00000297 000280E7 00100073 00900513 05D00893 00000073 | relocs 00000000 00000117 0000000C 00000004 00000118 00000000 | steps 5 | ends exited 9
# auipc t0,%pcrel_hi(code+12); addi a0,t0,%pcrel_lo(code)
00000297 00028513 05D00893 00000073 | relocs 00000000 00000117 0000000C 00000004 00000118 00000000 | steps 4 | ends stuck 0:1:c 4 ArgumentUnknown
# auipc t0,%pcrel_hi(w+5); addi a0,t0,%pcrel_lo(code)
00000297 00028513 05D00893 00000073 | relocs 00000000 00000517 00000005 00000004 00000118 00000000 | steps 4 | ends exited 5
# call code+16; addi a7,x0,93; ecall; addi a0,x0,5; jalr x0,0(ra)
00000097 000080E7 05D00893 00000073 00500513 00008067 | relocs 00000000 00000112 00000010 | steps 5 | ends exited 5
# addi t1,x0,1; auipc t1,0; jalr ra,0(t1), which call code+12; addi a0,t1,0
00100313 00000317 000300E7 00030513 05D00893 00000073 | relocs 00000004 00000113 0000000C | steps 5 | ends stuck 0:1:14 4 ArgumentUnknown
# call w
00000097 000080E7 | relocs 00000000 00000513 00000000 | steps 1 | ends stuck 0:1:0 3 TargetUnknown
# auipc x0,0; jalr ra,0(x0), which call code+8
00000017 000000E7 | relocs 00000000 00000112 00000008 | steps 1 | ends stuck 0:1:0 3 TargetUnknown
# auipc sp,0; jalr ra,0(sp), which call code+8
00000117 000100E7 | relocs 00000000 00000112 00000008 | steps 1 | ends stuck 0:1:0 7 StackPointer
# auipc ra,0; jalr sp,0(ra), which call code+8
00000097 00008167 | relocs 00000000 00000112 00000008 | steps 1 | ends stuck 0:1:0 7 StackPointer
# addi a0,x0,3; eight bytes of padding
00300513 00000013 00000013 05D00893 00000073 | relocs 00000004 0000002B 00000008 | steps 4 | ends exited 3
# beq x0,x0,code+8; ebreak; jal x0,code+16; ebreak; addi a0,x0,2
00000063 00100073 0000006F 00100073 00200513 05D00893 00000073 | relocs 00000000 00000110 00000008 00000008 00000111 00000010 | steps 5 | ends exited 2
# .word code
00000013 | relocs 00000000 00000101 00000000 | steps 1 | ends stuck 0:1:0 8 NoInstruction
# lui t0,%hi(data); lw t0,4(t0), which holds code+16; jalr x0,0(t0); ebreak; addi a0,x0,4
000002B7 0042A283 00028067 00100073 00400513 05D00893 00000073 | relocs 00000000 0000021A 00000000 | data 00000004 00000101 00000010 | steps 6 | ends exited 4
# lui t0,%hi(data); lbu a0,3(t0) of the word data+2 that is at data+1
000002B7 0032C503 05D00893 00000073 | relocs 00000000 0000021A 00000000 | data 00000001 00000201 00000002 | steps 4 | ends exited 10
# lui t0,%hi(data); lbu a0,5(t0) after the word data+2 that is at data+1
000002B7 0052C503 05D00893 00000073 | relocs 00000000 0000021A 00000000 | data 00000001 00000201 00000002 | steps 4 | ends exited 6
# lui t0,%hi(data); lbu a0,1(t0) of the word code+4 that is at data+1
000002B7 0012C503 05D00893 00000073 | relocs 00000000 0000021A 00000000 | data 00000001 00000101 00000004 | steps 4 | ends stuck 0:1:c 4 ArgumentUnknown
# lui t0,%hi(data); lbu a0,4(t0) of the word w+7, after one of code
000002B7 0042C503 05D00893 00000073 | relocs 00000000 0000021A 00000000 | data 00000000 00000101 00000000 00000004 00000501 00000007 | steps 4 | ends exited 7";
