//! Scripts over one server, and what they print there.

pub const FORCED: &str = "page c x2f73 exclusive save 20 x31
page a x2f73 exclusive save 20 x32
page b x2f73 exclusive keep
step 0 c
step 0 c
step 0 c
step 0 a
step 500 b
step 500 b
step 110000 b
step 110000 b
step 111000 b
step 111000 b
step 111000 b
step 111500 a
step 111500 a
step 111500 a
step 112000 b
step 112000 b
step 112000 b";

pub const FORCED_PRINTED: &str = "0 c acquire : missing
0 c run none
0 c write 0 20 0 x31 : done
0 a acquire : found 2 20 0 x31
500 b acquire : locked 2 0
500 b wait 1000
110000 b acquire : locked 2 110
110000 b wait 110500
111000 b acquire : locked 2 111
111000 b release 2 : done
111000 b acquire : found 6 20 0 x31
111500 a run 0 x31
111500 a write 2 20 0 x32 : locked 6 0
111500 a over lost-lock locked 6 0
112000 b run 0 x31
112000 b release 6 : done
112000 b over done
";

pub const GIVEN_UP: &str = "limits 110 500 2
page c x2f73 exclusive save 20 x31
page a x2f73 exclusive keep
page r x2f73 readonly keep
page o x2f73 off keep
step 0 c
step 0 c
step 0 c
step 0 a
step 1000 r
step 1500 r
step 1500 r
step 2000 o
step 2000 o";

pub const GIVEN_UP_PRINTED: &str = "0 c acquire : missing
0 c run none
0 c write 0 20 0 x31 : done
0 a acquire : found 2 20 0 x31
1000 r read : locked 2 1
1500 r read : locked 2 1
1500 r over gave-up 2 1
2000 o reset : done
2000 o over done
";
