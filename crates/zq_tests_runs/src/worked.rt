//! Worked scripts, each with the print that is wanted.
use crate::given::{NONE, ends_as};
use zq_script::running::Status;

/// What a script tells of, its lines, its print, and how its run ends.
const ROWS: [(&str, &str, &str, Status); 35] = [
    (
        "one query",
        "config 1 10000 north:client local\n\
         open local 10 client north -\n\
         open local 11 client north -\n\
         queryable 0 1 0:s:k c 0 0\n\
         ask 1 7 0:s:k all - 0 0 hi 0\n\
         reply 0 1 0:s:k ok yo\n\
         final 0 1\n\
         sent 0\n",
        "= opened 0\n\
         = opened 1\n\
         = done\n\
         = asked 0\n\
         > 0 0 - request 1 0:s:k all - 0 0 hi\n\
         = replied 0\n\
         > 1 0 0 response 7 0:s:k 0 ok yo -\n\
         = done\n\
         = done\n\
         > 1 0 - final 7 0\n",
        Status::Done,
    ),
    ("nothing", "", "bad line 1\n", Status::Script),
    (
        "a configuration alone",
        "config 1 10000 north:client local\n",
        "",
        Status::Done,
    ),
    (
        "an unknown number",
        "config 1 10000 north:client local\n\
         open local 10 client north -\n\
         open local 11 client north -\n\
         ask 1 7 9:s:k all - 0 0 hi 0\n",
        "= opened 0\n\
         = opened 1\n\
         = asked 0\n\
         > 1 0 - final 7 0\n",
        Status::Done,
    ),
    (
        "two targets",
        "config 1 10000 north:client local\n\
         open local 10 client north -\n\
         open local 11 client north -\n\
         open local 12 client north -\n\
         queryable 0 1 0:s:k p 0 0\n\
         queryable 1 1 0:s:k p 0 0\n\
         ask 2 7 0:s:k all - 0 0 - 0\n\
         final 0 1\n\
         final 1 1\n",
        "= opened 0\n\
         = opened 1\n\
         = opened 2\n\
         = done\n\
         = done\n\
         = asked 0\n\
         > 0 0 - request 1 0:s:k all - 0 0 -\n\
         > 1 0 - request 1 0:s:k all - 0 0 -\n\
         = done\n\
         = done\n\
         > 2 0 - final 7 0\n",
        Status::Done,
    ),
    (
        "the best one, then the other",
        "config 1 10000 north:client local\n\
         open local 10 client north -\n\
         open local 11 client north -\n\
         open local 12 client north -\n\
         queryable 0 1 0:s:k c 0 0\n\
         queryable 1 1 0:s:k p 0 0\n\
         ask 2 7 0:s:k best - 0 0 - 0\n\
         unqueryable 0 1 - 0\n\
         ask 2 8 0:s:k best - 0 0 - 0\n",
        "= opened 0\n\
         = opened 1\n\
         = opened 2\n\
         = done\n\
         = done\n\
         = asked 0\n\
         > 0 0 - request 1 0:s:k best - 0 0 -\n\
         = done\n\
         = asked 1\n\
         > 1 1 - request 1 0:s:k best - 0 0 -\n",
        Status::Done,
    ),
    (
        "too late",
        "config 1 10000 north:client local\n\
         open local 10 client north -\n\
         open local 11 client north -\n\
         queryable 0 1 0:s:k c 0 0\n\
         ask 1 7 0:s:k all 5 0 0 - 10\n\
         poll 14\n\
         poll 15\n\
         poll 99\n\
         sent 0\n",
        "= opened 0\n\
         = opened 1\n\
         = done\n\
         = asked 0\n\
         > 0 0 - request 1 0:s:k all 5 0 0 -\n\
         = done\n\
         = done\n\
         > 1 0 0 response 7 0:s:- 0 err Timeout 10\n\
         = done\n\
         = done\n\
         > 1 0 - final 7 0\n",
        Status::Done,
    ),
    (
        "the last moment",
        "config 1 10000 north:client local\n\
         open local 10 client north -\n\
         open local 11 client north -\n\
         queryable 0 1 0:s:k c 0 0\n\
         ask 1 7 0:s:k all 18446744073709551615 0 0 - 1\n\
         poll 18446744073709551614\n\
         poll 18446744073709551615\n",
        "= opened 0\n\
         = opened 1\n\
         = done\n\
         = asked 0\n\
         > 0 0 - request 1 0:s:k all 18446744073709551615 0 0 -\n\
         = done\n\
         = done\n\
         > 1 0 0 response 7 0:s:- 0 err Timeout 10\n",
        Status::Done,
    ),
    (
        "the target closes",
        "config 1 10000 north:client local\n\
         open local 10 client north -\n\
         open local 11 client north -\n\
         queryable 0 1 0:s:k c 0 0\n\
         ask 1 7 0:s:k all - 0 0 hi 0\n\
         close 0\n",
        "= opened 0\n\
         = opened 1\n\
         = done\n\
         = asked 0\n\
         > 0 0 - request 1 0:s:k all - 0 0 hi\n\
         = done\n\
         > 1 0 - final 7 0\n",
        Status::Done,
    ),
    (
        "the asker closes",
        "config 1 10000 north:client local\n\
         open local 10 client north -\n\
         open local 11 client north -\n\
         queryable 0 1 0:s:k c 0 0\n\
         ask 1 7 0:s:k all - 0 0 hi 0\n\
         close 1\n\
         reply 0 1 0:s:k ok yo\n\
         final 0 1\n",
        "= opened 0\n\
         = opened 1\n\
         = done\n\
         = asked 0\n\
         > 0 0 - request 1 0:s:k all - 0 0 hi\n\
         = done\n\
         = replied -\n\
         = done\n",
        Status::Done,
    ),
    (
        "one id twice",
        "config 1 10000 north:client local\n\
         open local 10 client north -\n\
         open local 11 client north -\n\
         queryable 0 1 0:s:k c 0 0\n\
         ask 1 7 0:s:k all - 0 0 - 0\n\
         ask 1 7 0:s:k all - 0 0 - 0\n\
         final 0 1\n\
         final 0 2\n",
        "= opened 0\n\
         = opened 1\n\
         = done\n\
         = asked 0\n\
         > 0 0 - request 1 0:s:k all - 0 0 -\n\
         = asked 1\n\
         > 0 1 - request 2 0:s:k all - 0 0 -\n\
         = done\n\
         > 1 0 - final 7 0\n\
         = done\n\
         > 1 1 - final 7 0\n",
        Status::Done,
    ),
    (
        "ids go round",
        "config 1 10000 north:client local\n\
         start 0 0 0 0 4294967295\n\
         open local 10 client north -\n\
         open local 11 client north -\n\
         queryable 0 1 0:s:k c 0 0\n\
         ask 1 7 0:s:k all - 0 0 - 0\n\
         ask 1 7 0:s:k all - 0 0 - 0\n\
         ask 1 7 0:s:k all - 0 0 - 0\n",
        "= opened 0\n\
         = opened 1\n\
         = done\n\
         = asked 0\n\
         > 0 0 - request 0 0:s:k all - 0 0 -\n\
         = asked 1\n\
         > 0 1 - request 1 0:s:k all - 0 0 -\n\
         = asked 2\n\
         > 0 2 - request 2 0:s:k all - 0 0 -\n",
        Status::Done,
    ),
    (
        "no face number left",
        "config 1 10000 north:client local\n\
         start 4294967295 0 0 0 0\n\
         open local 10 client north -\n\
         poll 0\n",
        "= refused NoFreeId\n\
         = done\n",
        Status::Done,
    ),
    (
        "two declarations of one key",
        "config 1 10000 north:client south:0:client\n\
         open south:0:client 20 client north -\n\
         key 0 5 0:s:k\n\
         queryable 0 1 5:s:- p 0 0\n\
         queryable 0 2 0:s:k p 0 0\n\
         unqueryable 0 1 - 0\n\
         open south:0:client 21 client north -\n\
         ask 1 1 0:s:k best - 0 0 - 0\n",
        "= opened 0\n\
         = done\n\
         = done\n\
         = done\n\
         = done\n\
         = opened 1\n\
         = asked 0\n\
         > 0 0 - request 1 5:r:- best - 0 0 -\n",
        Status::Done,
    ),
    (
        "longer characters",
        "config 1 10000 north:client local\n\
         open local 10 client north -\n\
         open local 11 client north -\n\
         key 0 1 0:s:%C8%B2/a\n\
         queryable 0 1 1:s:/%F0%9F%98%80 p 0 0\n\
         ask 1 1 0:s:%C8%B2/a/%F0%9F%98%80 all - 0 0 - 0\n",
        "= opened 0\n\
         = opened 1\n\
         = done\n\
         = done\n\
         = asked 0\n\
         > 0 0 - request 1 1:r:/%F0%9F%98%80 all - 0 0 -\n",
        Status::Done,
    ),
    (
        "numbers of keys",
        "config 1 10000 north:client local\n\
         open local 10 client north -\n\
         open local 11 client north -\n\
         key 0 0 0:s:k\n\
         key 0 5 0:s:k\n\
         key 0 5 0:s:m\n\
         key 0 5 0:s:k\n\
         unkey 0 5\n\
         unkey 0 5\n",
        "= opened 0\n\
         = opened 1\n\
         = refused Remapped\n\
         = done\n\
         = refused Remapped\n\
         = done\n\
         = done\n\
         = refused UnknownId\n",
        Status::Done,
    ),
    (
        "the best number",
        "config 1 10000 north:client local\n\
         open local 10 client north -\n\
         open local 11 client north -\n\
         key 0 11 0:s:test/queryable/reply\n\
         key 1 12 0:s:test/queryable\n\
         queryable 0 0 11:s:/** c 1 0\n\
         ask 1 1 0:s:test/queryable/reply/* all - 0 0 - 0\n\
         reply 0 1 11:s:/1 ok -\n\
         unkey 1 12\n\
         reply 0 1 11:s:/1 ok -\n",
        "= opened 0\n\
         = opened 1\n\
         = done\n\
         = done\n\
         = done\n\
         = asked 0\n\
         > 0 0 - request 1 11:r:/* all - 0 0 -\n\
         = replied 0\n\
         > 1 0 0 response 1 0:s:test/queryable/reply/1 0 ok - -\n\
         = done\n\
         = replied 1\n\
         > 1 0 1 response 1 0:s:test/queryable/reply/1 0 ok - -\n",
        Status::Done,
    ),
    (
        "refusals in order",
        "config 1 10000 north:client local\n\
         open local 10 client north -\n\
         open local 11 client north -\n\
         queryable 0 1 0:s:k c 0 0\n\
         ask 1 7 0:s:k all - 0 0 hi 0\n\
         reply 0 99 5:s:k ok -\n\
         reply 0 99 0:s:a//b ok -\n\
         reply 0 1 0:s:a//b ok -\n",
        "= opened 0\n\
         = opened 1\n\
         = done\n\
         = asked 0\n\
         > 0 0 - request 1 0:s:k all - 0 0 hi\n\
         = refused UnknownScope\n\
         = refused QueryNotFound\n\
         = refused InvalidKeyExpr\n",
        Status::Done,
    ),
    (
        "a list of gateways on the way to North",
        "config 2 10000 north:client south:0:client\n\
         open south:0:client 10 client north -\n\
         open north 99 router south -\n\
         gateways south:0:client 10=2,3 none\n\
         ask 0 1 0:s:k all - 0 0 - 0\n\
         gateways south:0:client 10=1,2 none\n\
         ask 0 2 0:s:k all - 0 0 - 0\n",
        "= opened 0\n\
         = opened 1\n\
         = done\n\
         = asked 0\n\
         > 0 0 - final 1 0\n\
         = done\n\
         = asked 1\n\
         > 1 1 - request 1 0:s:k all - 0 0 -\n",
        Status::Done,
    ),
    (
        "peers that may have more",
        "config 1 10000 north:peer local\n\
         open north 50 peer north -\n\
         open north 51 peer north -\n\
         open local 10 client north -\n\
         ask 2 1 0:s:k best - 0 0 - 0\n\
         finalize 0 initial 1\n\
         ask 2 2 0:s:k best - 0 0 - 0\n\
         finalize 1 initial 1\n\
         ask 2 3 0:s:k best - 0 0 - 0\n",
        "= opened 0\n\
         = opened 1\n\
         = opened 2\n\
         = asked 0\n\
         > 0 0 - request 1 0:s:k best - 0 0 -\n\
         > 1 0 - request 1 0:s:k best - 0 0 -\n\
         = done\n\
         = asked 1\n\
         > 1 1 - request 2 0:s:k best - 0 0 -\n\
         = done\n\
         = asked 2\n\
         > 2 2 - final 3 0\n",
        Status::Done,
    ),
    (
        "one face towards the upstream",
        "config 1 10000 north:client local\n\
         open north 99 router south -\n\
         open north 98 router south -\n\
         finalize 0 key a//b 1\n\
         close 0\n\
         open north 98 router south -\n",
        "= opened 0\n\
         = refused UpstreamInUse\n\
         = refused InvalidKeyExpr\n\
         = done\n\
         = opened 1\n",
        Status::Done,
    ),
    (
        "a router behind a router",
        "config 1 10000 north:router local\n\
         open north 2 router north -\n\
         open local 10 client north -\n\
         nodes 0 2,3\n\
         network north 1,2,3 1/x,1,1;-/x,x,x;-/x,x,x 0,10,20\n\
         queryable 0 0 0:s:k c 0 1\n\
         ask 1 7 0:s:k all - 0 0 hi 0\n\
         queryable 1 1 0:s:m p 0 0\n\
         unqueryable 1 1 - 0\n\
         queryable 0 0 0:s:k c 0 9\n",
        "= opened 0\n\
         = opened 1\n\
         = done\n\
         = done\n\
         = done\n\
         = asked 0\n\
         > 0 0 - request 1 0:s:k all - 0 0 hi\n\
         = done\n\
         > 0 - - key 1 0:s:m\n\
         > 0 - - queryable 0 1:s:- p 0 0 -\n\
         = done\n\
         > 0 - - unqueryable 0 1:s:- 0\n\
         = refused UnknownRouter\n",
        Status::Done,
    ),
    (
        "a tree that is too short leads nowhere",
        "config 1 10000 north:router local\n\
         open north 2 router north -\n\
         open local 10 client north -\n\
         nodes 0 2,3\n\
         network north 1,2,3 1/x,1 0\n\
         queryable 0 0 0:s:k c 0 1\n\
         ask 1 7 0:s:k all - 0 0 hi 0\n",
        "= opened 0\n\
         = opened 1\n\
         = done\n\
         = done\n\
         = done\n\
         = asked 0\n\
         > 1 0 - final 7 0\n",
        Status::Done,
    ),
    (
        "a router that the network drops",
        "config 1 10000 north:router local\n\
         open north 2 router north -\n\
         open local 10 client north -\n\
         nodes 0 2,3\n\
         network north 1,2,3 1/x,1,1;-/x,x,x;-/x,x,x 0,10,20\n\
         queryable 0 0 0:s:k c 0 1\n\
         network north 1,2 1/x,1;-/x,x 0,10\n\
         unqueryable 0 0 0:s:k 1\n",
        "= opened 0\n\
         = opened 1\n\
         = done\n\
         = done\n\
         = done\n\
         = done\n\
         = refused UnknownId\n",
        Status::Done,
    ),
    (
        "what routers are told by a closing, and by another region of routers",
        "config 1 10000 north:router local south:0:router\n\
         open north 2 router north -\n\
         open south:0:router 4 router north -\n\
         open local 10 client north -\n\
         open local 11 client north -\n\
         nodes 0 2,1\n\
         nodes 1 4\n\
         network north 1,2 1/x,1;-/0,x 0,10\n\
         network south:0:router 4,1 1/x,0;0/1,x 5,0\n\
         queryable 2 1 0:s:k c 3 0\n\
         queryable 3 1 0:s:k p 2 0\n\
         queryable 1 0 0:s:k c 1 0\n\
         queryable 1 0 0:s:k c 1 0\n\
         queryable 0 0 0:s:k c 1 1\n\
         close 2\n\
         close 3\n\
         unqueryable 0 0 - 0\n\
         close 1\n\
         network south:0:router 1 -/x 0\n",
        "= opened 0\n\
         = opened 1\n\
         = opened 2\n\
         = opened 3\n\
         = done\n\
         = done\n\
         = done\n\
         = done\n\
         = done\n\
         > 0 - - key 1 0:s:k\n\
         > 0 - - queryable 0 1:s:- c 3 0 -\n\
         > 1 - - queryable 0 0:s:k c 3 1 -\n\
         = done\n\
         = done\n\
         > 0 - - queryable 0 1:s:- c 1 0 -\n\
         = done\n\
         = refused UnknownRouter\n\
         = done\n\
         > 1 - - queryable 0 0:s:k p 2 1 -\n\
         = done\n\
         > 1 - - unqueryable 0 0:s:k 1\n\
         = refused InvalidKeyExpr\n\
         = done\n\
         = done\n\
         > 0 - - unqueryable 0 1:s:- 0\n",
        Status::Done,
    ),
    (
        "what a face that asks is told",
        "config 1 10000 north:client local\n\
         open local 10 client north -\n\
         open local 11 client north -\n\
         open local 12 client north -\n\
         queryable 0 1 0:s:a/b c 2 0\n\
         interest 1 5 0:s:a/* n\n\
         queryable 2 1 0:s:a/c p 0 0\n\
         queryable 1 1 0:s:a/d p 0 0\n\
         interest 1 5 0:s:x n\n\
         uninterest 1 5\n\
         unqueryable 0 1 - 0\n\
         uninterest 1 5\n",
        "= opened 0\n\
         = opened 1\n\
         = opened 2\n\
         = done\n\
         = done\n\
         > 1 - - queryable 1 0:s:a/b c 2 0 5\n\
         > 1 - - declfinal 5\n\
         = done\n\
         > 1 - - queryable 2 0:s:a/c p 0 0 -\n\
         = done\n\
         = refused IdInUse\n\
         = done\n\
         = done\n\
         = refused UnknownId\n",
        Status::Done,
    ),
    (
        "a face that asks is told one entry for all keys that meet its own",
        "config 1 10000 north:client local\n\
         open local 10 client north -\n\
         open local 11 client north -\n\
         open local 12 client north -\n\
         queryable 0 1 0:s:a/b c 2 0\n\
         interest 1 5 0:s:a/* n a\n\
         queryable 2 1 0:s:a/** c 4 0\n\
         unqueryable 2 1 - 0\n\
         queryable 2 2 0:s:a/* p 3 0\n\
         interest 1 6 0:s:a/** n\n\
         uninterest 1 5\n",
        "= opened 0\n\
         = opened 1\n\
         = opened 2\n\
         = done\n\
         = done\n\
         > 1 - - queryable 1 0:s:a/* p 2 0 5\n\
         > 1 - - declfinal 5\n\
         = done\n\
         > 1 - - queryable 1 0:s:a/* c 4 0 -\n\
         = done\n\
         > 1 - - queryable 1 0:s:a/* p 2 0 -\n\
         = done\n\
         = done\n\
         > 1 - - queryable 1 0:s:a/* p 2 0 6\n\
         > 1 - - queryable 2 0:s:a/b c 2 0 6\n\
         > 1 - - declfinal 6\n\
         = done\n\
         > 1 - - queryable 1 0:s:a/* p 3 0 -\n",
        Status::Done,
    ),
    (
        "a face that wants numbers is told a key by one",
        "config 1 10000 north:client south:0:client south:1:client\n\
         open south:0:client 20 client north -\n\
         open south:1:client 21 client north -\n\
         interest 0 1 0:s:a/* k\n\
         queryable 1 1 0:s:a/b c 0 0\n",
        "= opened 0\n\
         = opened 1\n\
         = done\n\
         > 0 - - declfinal 1\n\
         = done\n\
         > 0 - - key 1 0:s:a/b\n\
         > 0 - - queryable 1 1:s:- c 0 0 -\n",
        Status::Done,
    ),
    (
        "a face that wants none is told it whole",
        "config 1 10000 north:client south:0:client south:1:client\n\
         open south:0:client 20 client north -\n\
         open south:1:client 21 client north -\n\
         interest 0 1 0:s:a/* n\n\
         queryable 1 1 0:s:a/b c 0 0\n",
        "= opened 0\n\
         = opened 1\n\
         = done\n\
         > 0 - - declfinal 1\n\
         = done\n\
         > 0 - - queryable 1 0:s:a/b c 0 0 -\n",
        Status::Done,
    ),
    (
        "a namespace and its exit",
        "config 1 10000 north:client local\n\
         open local 10 client north n\n\
         open local 11 client north -\n\
         queryable 0 1 0:s:k p 0 0\n\
         ask 1 7 0:s:n/k all - 0 0 - 0\n\
         reply 0 1 0:s:k ok yo\n\
         queryable 0 2 0:s:** p 0 0\n\
         ask 1 8 0:s:n all - 0 0 - 0\n\
         ask 1 9 0:s:** all - 0 0 - 0\n",
        "= opened 0\n\
         = opened 1\n\
         = done\n\
         = asked 0\n\
         > 0 0 - request 1 0:s:n/k all - 0 0 -\n\
         < request 1 0:s:k all - 0 0 -\n\
         = replied 0\n\
         > 1 0 0 response 7 0:s:n/k 0 ok yo -\n\
         = done\n\
         = asked 1\n\
         > 0 1 - request 2 0:s:n all - 0 0 -\n\
         < -\n\
         > 1 1 - final 8 0\n\
         = asked 2\n\
         > 0 2 - request 3 0:s:** all - 0 0 -\n",
        Status::Done,
    ),
    (
        "an opening that is refused, and the face that asks of the upstream",
        "config 1 10000 north:client local\n\
         open local 10 client north -\n\
         open local 11 client north -\n\
         close 5\n\
         open south:3:peer 5 peer north -\n\
         open local 5 client north a/*\n\
         open local 5 client north - in:a//b\n\
         open local 5 client north - out:\n\
         open north 99 router south -\n\
         open north 98 router south -\n",
        "= opened 0\n\
         = opened 1\n\
         = refused UnknownFace\n\
         = refused UnknownRegion\n\
         = refused InvalidKeyExpr\n\
         = refused InvalidKeyExpr\n\
         = refused InvalidKeyExpr\n\
         = opened 2\n\
         = refused UpstreamInUse\n",
        Status::Done,
    ),
    (
        "deny lists",
        "config 1 10000 north:client local\n\
         open local 10 client north - out:k/*\n\
         open local 11 client north - in:m/**\n\
         queryable 0 1 0:s:** c 0 0\n\
         ask 1 1 0:s:k/a all - 0 0 - 0\n\
         ask 1 2 0:s:k all - 0 0 - 0\n\
         ask 1 3 0:s:m/a all - 0 0 - 0\n",
        "= opened 0\n\
         = opened 1\n\
         = done\n\
         = asked 0\n\
         > 0 0 - request 1 0:s:k/a all - 0 0 -\n\
         < -\n\
         > 1 0 - final 1 0\n\
         = asked 1\n\
         > 0 1 - request 2 0:s:k all - 0 0 -\n\
         = asked 2\n\
         > 1 2 - final 3 0\n",
        Status::Done,
    ),
    (
        "the best of each region",
        "config 1 10000 north:client local south:0:client\n\
         open local 10 client north -\n\
         open south:0:client 20 client north -\n\
         open local 12 client north -\n\
         queryable 0 1 0:s:k p 0 0\n\
         queryable 1 1 0:s:k c 0 0\n\
         ask 2 1 0:s:k best - 0 0 - 0\n\
         queryable 1 1 0:s:k p 0 0\n\
         ask 2 2 0:s:k best - 0 0 - 0\n",
        "= opened 0\n\
         = opened 1\n\
         = opened 2\n\
         = done\n\
         = done\n\
         = asked 0\n\
         > 0 0 - request 1 0:s:k best - 0 0 -\n\
         > 1 0 - request 1 0:s:k best - 0 0 -\n\
         = done\n\
         = asked 1\n\
         > 0 1 - request 2 0:s:k best - 0 0 -\n\
         > 1 1 - request 2 0:s:k best - 0 0 -\n",
        Status::Done,
    ),
    (
        "the best of all regions together",
        "config 1 10000 north:client local south:0:client\n\
         best overall\n\
         open local 10 client north -\n\
         open south:0:client 20 client north -\n\
         open local 12 client north -\n\
         queryable 0 1 0:s:k p 0 0\n\
         queryable 1 1 0:s:k c 0 0\n\
         ask 2 1 0:s:k best - 0 0 - 0\n\
         queryable 1 1 0:s:k p 0 0\n\
         ask 2 2 0:s:k best - 0 0 - 0\n",
        "= opened 0\n\
         = opened 1\n\
         = opened 2\n\
         = done\n\
         = done\n\
         = asked 0\n\
         > 1 0 - request 1 0:s:k best - 0 0 -\n\
         = done\n\
         = asked 1\n\
         > 0 1 - request 1 0:s:k best - 0 0 -\n\
         > 1 1 - request 2 0:s:k best - 0 0 -\n",
        Status::Done,
    ),
    (
        "a choice that is said twice",
        "config 1 10000 north:client local\n\
         start 5 0 0 0 0\n\
         best region\n\
         best overall\n\
         open local 10 client north -\n",
        "bad line 4\n",
        Status::Script,
    ),
];

#[test]
fn rows(rt: HostRuntime) {
    for (name, script, print, status) in &ROWS {
        let wanted = (*status, *print);
        let ends = ends_as(rt.alloc(), &["replay"], script.as_bytes(), NONE, wanted);
        assert!(rt; ends == Ok(true), "{name}");
    }
}
