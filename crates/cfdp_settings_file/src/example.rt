//! A settings file with all options.

/// A settings file with all options, a comment for each, and what holds if nothing is said. What
/// has no such value stands in a comment.
pub const EXAMPLE: &str = "\
# Settings of 'cfdp_node station --config FILE'. An option of the command line replaces one here;
# --put and --set add to those here. Values without '#' are the defaults.

# Identity and addresses: required, here or on the command line.
# id = 1                        # entity id of this station
# peer = 2                      # entity id of the peer
# listen = \"127.0.0.1:5001\"     # listen at this UDP address
# to = \"127.0.0.1:5002\"         # send to this UDP address of the peer

# Link.
idle = 0                        # stop after N idle seconds (0: never)
first-number = 0                # transaction number of the first put (0: next unused)
rate = 1000                     # send at most N frames a second, to 1000000 (0: any)
drop = 0                        # for tests: lose each Kth frame (0: none)
loss = 0                        # for tests: lose each frame with a probability of P percent
seed = 1                        # seed the random numbers of loss
carrier = \"frames\"              # send frames, packets or pdus over UDP
unit = \"s\"                      # unit of the times in [set] below: s or ms
# keys = \"station.keys\"         # authenticate frames with the keys in this file

# Folders, and the file that keeps the used transaction numbers.
# inbox = \"RECEIVED\"            # receive files into this folder
# outbox = \"FILES\"              # find the files of put in this folder
# state = \"FILES.state\"         # default: beside outbox or spool, otherwise beside inbox
# journal = \"FILES.journal\"     # default: beside the state file, FILES.state.1-2.journal
journal-every = 1000            # note progress in it each N ms, 10 to 3600000
no-journal = false              # forget open transfers at a restart

# Files to send.
put = []                        # files of outbox with their names there: [[\"a.bin\", \"b.bin\"]]
# spool = \"SEND\"                # send each file that is put into this folder
remove-sent = false             # delete sent spool files, instead of keeping them
retries = 3                     # retry a spool file up to N times, to 1000
at-once = 4                     # send up to N files at once, 1 to 3072

# Names of files that are sent and received.
names = \"portable\"              # portable: A-Z a-z 0-9 . _ - to 64; any: UTF-8 to 255 octets

# Files to accept.
most-size = 0                   # refuse files of more than N octets, to 2^48 (0: any)
most-open = 0                   # receive at most N files at once, to 4096 (0: any)
no-overwrite = false            # refuse a file whose name is taken

# Operation.
commands = false                # read commands from standard input
# control = \"127.0.0.1:5101\"    # accept commands at this TCP address, or at \"unix:PATH\"
# console = \"127.0.0.1:8080\"    # serve a web console at this TCP address
# console-token = \"TOKEN\"       # ask visitors for the token in this file
# console-host = \"cfdp.example\" # accept requests of a proxy for this host

# Output.
no-time = false                 # omit timestamps
json = false                    # write each line as a JSON object
explain = false                 # explain condition codes; print a summary
trace = false                   # print each event on standard error
# pcap = \"station.pcap\"         # write all PDUs, as a capture for Wireshark
# chart = \"station.mmd\"         # write a sequence diagram, in Mermaid's text

# Keys of --set.
[set]
# A frame has zone + 8 octets, and an Ethernet packet takes one of up to 1472: IP sends a longer one
# in pieces, and a lost piece loses it whole.
zone = 256                      # octets of the packet zone of a frame, 16 to 2040
insert_zone = 0                 # octets of the insert zone in frames sent, 0 to 64
control_field = 0               # 1: frames sent have an operational control field
error_control = 0               # 1: frames sent have a frame error control field
peer_insert_zone = 0            # the same for frames received
peer_control_field = 0
peer_error_control = 0
# mac = 16                      # with keys: octets of the MAC of a frame, 16 or 32
segment = 1024                  # most octets of file data in one PDU, 1 to 4096
id_width = 2                    # octets of an entity id, 1 to 8
number_width = 8                # octets of a transaction number, 1 to 8
checksum = 0                    # 0 modular, 1 Proximity-1, 2 CRC-32C, 3 CRC-32, 15 null
pdu_crc = 1                     # 1: PDUs sent end in a CRC
eof_limit = 3                   # retransmissions of an EOF before a fault, 0 to 255
nak_limit = 3                   # retransmissions of a NAK before a fault, 0 to 255
finished_limit = 3              # retransmissions of a Finished before a fault, 0 to 255
eof_time = 10                   # time to wait for the ACK of an EOF, in units, below 2^32
nak_time = 10                   # time to wait for data requested by a NAK
finished_time = 10              # time to wait for the ACK of a Finished
inactivity_time = 100           # time to wait for any PDU of a transaction
on_ack_limit = 0                # no ACK: 0 cancel, 1 suspend, 2 ignore, 3 abandon
on_nak_limit = 0                # the same if data is still missing after all NAKs
on_inactivity = 0               # the same if no PDU arrives in inactivity_time
most_gaps = 65536               # most gaps of a file that is received, 0: no limit
spacecraft = 42                 # spacecraft id of both directions, 0 to 255
packet_type = 0                 # with carrier = 'packets': 0 telemetry, 1 telecommand
secondary_header = 0            # octets of the secondary header in packets sent, 0 to 63
peer_secondary_header = 0       # the same for packets received
# These defaults are for the station with the lower id; the other one uses them swapped.
# virtual_channel = 5           # of frames sent, with directives, 0 to 62
# data_virtual_channel = 7      # of frames sent, with file data
# apid = 100                    # of packets sent, 0 to 2046
# peer_virtual_channel = 6      # the same for frames and packets received
# peer_data_virtual_channel = 8
# peer_apid = 101
";
