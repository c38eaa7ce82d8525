//! Written by make_examples.py from examples/: texts, and their bytes in hex.

pub const EXAMPLES: &[(&str, &str)] = &[
    (
        "# The bytes of a number the other way round.\n\
         \x20       lddw r0, 0x1122334455667788\n\
         \x20       bswap64 r0\n\
         \x20       exit\n",
        "18000000887766550000000044332211d7000000400000009500000000000000",
    ),
    (
        "# The Internet checksum (RFC 1071) of an object. r1 is its address; the length comes from helper 1.\n\
         \x20       mov r6, r1              # where it reads\n\
         \x20       rsh r1, 32              # the object's number\n\
         \x20       call 1                  # its length\n\
         \x20       mov r7, r0\n\
         \x20       mov r0, 0               # the sum\n\
         pair:   jlt r7, 2, odd\n\
         \x20       ldxh r2, [r6]\n\
         \x20       be16 r2                 # the first byte is the high one\n\
         \x20       add r0, r2\n\
         \x20       add r6, 2\n\
         \x20       sub r7, 2\n\
         \x20       ja pair\n\
         odd:    jeq r7, 0, fold\n\
         \x20       ldxb r2, [r6]           # an odd byte counts as a high one\n\
         \x20       lsh r2, 8\n\
         \x20       add r0, r2\n\
         fold:   mov r2, r0\n\
         \x20       rsh r2, 16\n\
         \x20       and r0, 65535\n\
         \x20       add r0, r2\n\
         \x20       jgt r0, 65535, fold\n\
         \x20       xor r0, 65535\n\
         \x20       exit\n",
        "bf1600000000000077010000200000008500000001000000bf07000000000000b700000000000000a5070600020000006962000000000000dc02000010000000\
         0f20000000000000070600000200000017070000020000000500f9ff000000001507030000000000716200000000000067020000080000000f20000000000000\
         bf02000000000000770200001000000057000000ffff00000f200000000000002500fbffffff0000a7000000ffff00009500000000000000",
    ),
    (
        "# The factorial of r1, by a function that calls itself.\n\
         \x20       call local factorial\n\
         \x20       exit\n\
         factorial:\n\
         \x20       mov r0, 1\n\
         \x20       jle r1, 1, done\n\
         \x20       mov r6, r1              # kept by the call\n\
         \x20       sub r1, 1\n\
         \x20       call local factorial\n\
         \x20       mul r0, r6\n\
         done:   exit\n",
        "85100000010000009500000000000000b700000001000000b501040001000000bf16000000000000170100000100000085100000fbffffff2f60000000000000\
         9500000000000000",
    ),
    (
        "# Fills r3 bytes, from r1 on, with r2. There is one at least.\n\
         \x20       mov r4, 0               # how many are filled\n\
         next:   stxb [r1], r2\n\
         \x20       add r1, 1\n\
         \x20       add r4, 1\n\
         \x20       jlt r4, r3, next\n\
         \x20       exit\n",
        "b704000000000000732100000000000007010000010000000704000001000000ad34fcff000000009500000000000000",
    ),
    (
        "\x20       mov r0, 7\n\
         \x20       exit\n",
        "b7000000070000009500000000000000",
    ),
    (
        "# The greatest common divisor of r1 and r2.\n\
         \x20       mov r0, r1\n\
         \x20       jeq r2, 0, test\n\
         next:   mov r3, r2\n\
         \x20       mod r0, r2\n\
         \x20       mov r2, r0\n\
         \x20       mov r0, r3\n\
         test:   jne r2, 0, next\n\
         \x20       exit\n",
        "bf100000000000001502040000000000bf230000000000009f20000000000000bf02000000000000bf300000000000005502fbff000000009500000000000000",
    ),
    (
        "# Puts a key into a hash table: r1 is the table's address, r2 the key, r3 the value; r0 is 1, or 0 where it is full.\n\
         \x20       lddw r4, 0x9e3779b97f4a7c15\n\
         \x20       mul r4, r2\n\
         \x20       rsh r4, 61              # one of 8 entries\n\
         \x20       mov r5, 8               # so many are looked at\n\
         look:   mov r6, r4\n\
         \x20       lsh r6, 4\n\
         \x20       add r6, r1              # the entry: key, value\n\
         \x20       ldxdw r0, [r6]\n\
         \x20       jeq r0, r2, put\n\
         \x20       jeq r0, 0, put          # free\n\
         \x20       add r4, 1\n\
         \x20       and r4, 7\n\
         \x20       sub r5, 1\n\
         \x20       jne r5, 0, look\n\
         \x20       mov r0, 0               # full\n\
         \x20       exit\n\
         put:    stxdw [r6], r2\n\
         \x20       stxdw [r6+8], r3\n\
         \x20       mov r0, 1\n\
         \x20       exit\n",
        "18040000157c4a7f00000000b979379e2f24000000000000770400003d000000b705000008000000bf4600000000000067060000040000000f16000000000000\
         79600000000000001d2007000000000015000600000000000704000001000000570400000700000017050000010000005505f6ff00000000b700000000000000\
         95000000000000007b260000000000007b36080000000000b7000000010000009500000000000000",
    ),
    (
        "# Looks a key up in a hash table: r1 is the table's address, r2 the key; r0 is the value, or 0.\n\
         \x20       lddw r4, 0x9e3779b97f4a7c15\n\
         \x20       mul r4, r2\n\
         \x20       rsh r4, 61\n\
         \x20       mov r5, 8\n\
         look:   mov r6, r4\n\
         \x20       lsh r6, 4\n\
         \x20       add r6, r1\n\
         \x20       ldxdw r0, [r6]\n\
         \x20       jeq r0, r2, found\n\
         \x20       jeq r0, 0, none\n\
         \x20       add r4, 1\n\
         \x20       and r4, 7\n\
         \x20       sub r5, 1\n\
         \x20       jne r5, 0, look\n\
         none:   mov r0, 0\n\
         \x20       exit\n\
         found:  ldxdw r0, [r6+8]\n\
         \x20       exit\n",
        "18040000157c4a7f00000000b979379e2f24000000000000770400003d000000b705000008000000bf4600000000000067060000040000000f16000000000000\
         79600000000000001d2007000000000015000400000000000704000001000000570400000700000017050000010000005505f6ff00000000b700000000000000\
         950000000000000079600800000000009500000000000000",
    ),
    (
        "# The sum of a linked list. A node is an object: its value, and the address of the next node or 0.\n\
         \x20       mov r6, 0               # the sum\n\
         next:   ldxdw r2, [r1]          # the node's value\n\
         \x20       add r6, r2\n\
         \x20       ldxdw r1, [r1+8]        # the next node\n\
         \x20       call 4                  # done with this one: it may leave\n\
         \x20       jne r1, 0, next\n\
         \x20       mov r0, r6\n\
         \x20       exit\n",
        "b70600000000000079120000000000000f26000000000000791108000000000085000000040000005501fbff00000000bf600000000000009500000000000000",
    ),
    (
        "# Puts numbers into a queue: r1 is its address, r2 the first number, r3 how many.\n\
         again:  ldxdw r4, [r1]          # how many were put in\n\
         \x20       ldxdw r5, [r1+8]        # how many were taken out\n\
         \x20       mov r0, r4\n\
         \x20       sub r0, r5\n\
         \x20       jge r0, 4, again        # full\n\
         \x20       mov r0, r4\n\
         \x20       and r0, 3\n\
         \x20       lsh r0, 3\n\
         \x20       add r0, r1\n\
         \x20       stxdw [r0+16], r2       # first the value,\n\
         \x20       mov r5, 1\n\
         \x20       aadd [r1], r5           # then the count that shows it\n\
         \x20       add r2, 1\n\
         \x20       sub r3, 1\n\
         \x20       jne r3, 0, again\n\
         \x20       exit\n",
        "79140000000000007915080000000000bf400000000000001f500000000000003500fbff04000000bf4000000000000057000000030000006700000003000000\
         0f100000000000007b20100000000000b705000001000000db51000000000000070200000100000017030000010000005503f1ff000000009500000000000000",
    ),
    (
        "# Takes numbers out of a queue and emits each: r1 is its address, r2 how many.\n\
         \x20       mov r6, r1\n\
         again:  ldxdw r4, [r6]          # how many were put in\n\
         \x20       ldxdw r5, [r6+8]        # how many were taken out\n\
         \x20       jeq r4, r5, again       # empty\n\
         \x20       and r5, 3\n\
         \x20       lsh r5, 3\n\
         \x20       add r5, r6\n\
         \x20       ldxdw r1, [r5+16]       # first the value,\n\
         \x20       mov r5, 1\n\
         \x20       aadd [r6+8], r5         # then the place is free\n\
         \x20       call 3\n\
         \x20       sub r2, 1\n\
         \x20       jne r2, 0, again\n\
         \x20       exit\n",
        "bf16000000000000796400000000000079650800000000001d54fdff00000000570500000300000067050000030000000f650000000000007951100000000000\
         b705000001000000db56080000000000850000000300000017020000010000005502f4ff000000009500000000000000",
    ),
    (
        "# 7 by r1, unsigned: nothing is divided by zero.\n\
         \x20       mov r0, 7\n\
         \x20       div r0, r1\n\
         \x20       exit\n",
        "b7000000070000003f100000000000009500000000000000",
    ),
    (
        "# The sum of the numbers from 1 to r1.\n\
         \x20       mov r0, 0\n\
         \x20       jeq r1, 0, done\n\
         next:   add r0, r1\n\
         \x20       sub r1, 1\n\
         \x20       jne r1, 0, next\n\
         done:   exit\n",
        "b70000000000000015010300000000000f1000000000000017010000010000005501fdff000000009500000000000000",
    ),
];
